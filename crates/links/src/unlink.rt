// A slot leaves the tree, and the tree is balanced.
ghost use Rattle.std.specs.Prelude.{◌≡◌, ℕ, List};
ghost use Rattle.redblack.specs.Removal.{replaced, lowered, traded, replacement, spliced, detached, dropped, leftmost, removed};
ghost use Rattle.links.specs.Spots.{relinked, rebalanced, blackened};
ghost use Rattle.redblack.specs.Links.{lent_links};

use crate::balance::balance_deletion;
use crate::sizes::{ONE_LESS, exchange, weigh};
use slots::{BLACK, LEFT, NULL, PARENT, RIGHT, STATE, colour, get, is_red, put};

// q's link to p leads to x: the left one where p stands on the left, else the right one. The root and the sizes,
// whatever they are, stay.
fn relink(cells: &mut [u32], q: u32, p: u32, x: u32)
    ensures { (root : ℕ) (sizes : List ℕ) → lent_links cells.new root sizes
        ≡ relinked (lent_links cells.old root sizes) q p x }
{
    if get(cells, q, LEFT) == p {
        put(cells, q, LEFT, x);
    } else {
        put(cells, q, RIGHT, x);
    }
}

// q's child p is replaced by x; with no q, x is the root. The sizes, whatever they are, stay. Returns the root.
fn replace(cells: &mut [u32], root: u32, q: u32, p: u32, x: u32) -> u32
    ensures { (sizes : List ℕ) → lent_links cells.new result sizes
        ≡ replaced (lent_links cells.old root sizes) q p x }
{
    if q == NULL {
        return x;
    }
    relink(cells, q, p, x);
    root
}

// p goes where its successor t stands: under t where t is its right child pr, else under t's parent tp, and t takes the
// right child. The root and the sizes, whatever they are, stay.
fn lower(cells: &mut [u32], p: u32, t: u32, pr: u32, tp: u32)
    ensures { (root : ℕ) (sizes : List ℕ) → lent_links cells.new root sizes
        ≡ lowered (lent_links cells.old root sizes) p t pr tp }
{
    if t == pr {
        put(cells, p, PARENT, t);
        put(cells, t, RIGHT, p);
        return;
    }
    put(cells, p, PARENT, tp);
    relink(cells, tp, t, p);
    put(cells, t, RIGHT, pr);
    put(cells, pr, PARENT, t);
}

// With two children, successor and slot trade positions and colours, and last their sizes. t is the successor; what is
// read is read before a link changes. Returns the root.
fn trade(cells: &mut [u32], sizes: &mut [u32], root: u32, p: u32, t: u32) -> u32
    ensures { lent_links cells.new result sizes.new
        ≡ traded (lent_links cells.old root sizes.old) p t }
{
    let high = colour(cells, p);
    let low = colour(cells, t);
    let pl = get(cells, p, LEFT);
    let tr = get(cells, t, RIGHT);
    let pp = get(cells, p, PARENT);
    let pr = get(cells, p, RIGHT);
    let tp = get(cells, t, PARENT);
    put(cells, t, STATE, high);
    put(cells, p, STATE, low);
    lower(cells, p, t, pr, tp);
    put(cells, p, LEFT, NULL);
    put(cells, p, RIGHT, tr);
    put(cells, tr, PARENT, p);
    put(cells, t, LEFT, pl);
    put(cells, pl, PARENT, t);
    put(cells, t, PARENT, pp);
    let top = replace(cells, root, pp, p, t);
    exchange(sizes, p, t);
    top
}

// The one child takes the slot's position, or the slot stands as its own replacement.
fn replacement(cells: &[u32], p: u32) -> u32
    ensures { (root : ℕ) (sizes : List ℕ) → result ≡ replacement (lent_links cells.now root sizes) p }
{
    let low = get(cells, p, LEFT);
    if low == NULL {
        let high = get(cells, p, RIGHT);
        if high == NULL {
            return p;
        }
        return high;
    }
    low
}

// The replacement x takes the position of p, and p keeps no link to the tree. The sizes, whatever they are, stay. Returns
// the root.
fn splice(cells: &mut [u32], root: u32, p: u32, x: u32) -> u32
    ensures { (sizes : List ℕ) → lent_links cells.new result sizes
        ≡ spliced (lent_links cells.old root sizes) p x }
{
    let pp = get(cells, p, PARENT);
    put(cells, x, PARENT, pp);
    let top = replace(cells, root, pp, p, x);
    put(cells, p, LEFT, NULL);
    put(cells, p, RIGHT, NULL);
    put(cells, p, PARENT, NULL);
    top
}

// The slot that stood as its own replacement leaves its parent; with none, the tree is empty. The sizes, whatever they
// are, stay. Returns the root.
fn detach(cells: &mut [u32], root: u32, p: u32) -> u32
    ensures { (sizes : List ℕ) → lent_links cells.new result sizes
        ≡ detached (lent_links cells.old root sizes) p }
{
    let pp = get(cells, p, PARENT);
    let top = replace(cells, root, pp, p, NULL);
    put(cells, p, PARENT, NULL);
    top
}

// If the removed slot is now black, balance_deletion starts at the replacement x. Where it is red, as redness says,
// nothing is to be done. Returns the root.
fn rebalance(
    cells: &mut [u32],
    sizes: &mut [u32],
    root: u32,
    x: u32,
    redness: bool,
    budget: u32,
) -> u32
    ensures { lent_links cells.new result sizes.new
        ≡ rebalanced budget (lent_links cells.old root sizes.old) x redness }
{
    if redness {
        return root;
    }
    balance_deletion(cells, sizes, root, x, budget)
}

// A replacement that became the root is painted black. The sizes, whatever they are, stay.
fn blacken(cells: &mut [u32], root: u32, x: u32)
    ensures { (sizes : List ℕ) → lent_links cells.new root sizes
        ≡ blackened (lent_links cells.old root sizes) x }
{
    if root == x {
        put(cells, x, STATE, BLACK);
    }
}

// p, with at most one child, goes: its replacement takes its position, the tree is balanced, and a slot that stood as
// its own replacement is detached. Where p leaves the links it leaves the sizes above it. Returns the root.
fn drop_slot(cells: &mut [u32], sizes: &mut [u32], root: u32, p: u32, budget: u32) -> u32
    ensures { lent_links cells.new result sizes.new
        ≡ dropped budget (lent_links cells.old root sizes.old) p }
{
    let x = replacement(cells, p);
    let red = is_red(cells, p);
    if x == p {
        let low = rebalance(cells, sizes, root, x, red, budget);
        weigh(cells, sizes, p, 0, ONE_LESS, budget);
        let top = detach(cells, low, p);
        blacken(cells, top, x);
        return top;
    }
    weigh(cells, sizes, p, 0, ONE_LESS, budget);
    let low = splice(cells, root, p, x);
    let top = rebalance(cells, sizes, low, x, red, budget);
    blacken(cells, top, x);
    top
}

// The leftmost slot from q down, at most so many steps.
fn leftmost(cells: &[u32], q: u32, budget: u32) -> u32
    ensures { (root : ℕ) (sizes : List ℕ) → result ≡ leftmost budget (lent_links cells.now root sizes) q }
{
    let mut at = q;
    for _ in 0..budget {
        let next = get(cells, at, LEFT);
        if next == NULL {
            return at;
        }
        at = next;
    }
    at
}

// The slot p leaves the tree, after it traded with its successor where it has two children. Returns the root.
pub fn unlink_slot(cells: &mut [u32], sizes: &mut [u32], root: u32, p: u32, budget: u32) -> u32
    ensures { lent_links cells.new result sizes.new
        ≡ removed budget (lent_links cells.old root sizes.old) p }
{
    if get(cells, p, LEFT) == NULL {
        return drop_slot(cells, sizes, root, p, budget);
    }
    let pr = get(cells, p, RIGHT);
    if pr == NULL {
        return drop_slot(cells, sizes, root, p, budget);
    }
    let t = leftmost(cells, pr, budget);
    let low = trade(cells, sizes, root, p, t);
    drop_slot(cells, sizes, low, p, budget)
}
