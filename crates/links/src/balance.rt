// balance_insertion and balance_deletion, a turn of each loop at a time. near is the field of the side where x, or its
// parent, stands; far that of the other.
// Form kept: near, far and the colours are the very words that get and put take, so that an enum would be turned back at each.
ghost use Rattle.std.specs.Prelude.{◌≡◌};
ghost use Rattle.slots.specs.Words.{state, write};
ghost use Rattle.redblack.specs.Insertion.{raised, straightened, lifted, insertion_turn, insertion_turns, balanced_insertion};
ghost use Rattle.redblack.specs.Deletion.{outer_red, inner_red, dark_sib, by_sib, deletion_turn, balanced_deletion};
ghost use Rattle.links.specs.Turns.{turn_of};
ghost use Rattle.redblack.specs.Links.{lent_links};

use crate::rotate::rotate;
use slots::{BLACK, LEFT, NULL, PARENT, RED, RIGHT, STATE, colour, get, is_red, put};

// What a turn comes to: the root, and the slot that the loop goes on from, if it does.
type Step = (u32, Option<u32>);

// Writes a colour as the state of slot i.
fn paint(cells: &mut [u32], i: u32, colour: u32)
    ensures { cells.new ≡ write cells.old i state colour }
{
    put(cells, i, STATE, colour);
}

// The parent is painted black, the grandparent red, and the grandparent goes down on the far side.
fn raise(
    cells: &mut [u32],
    sizes: &mut [u32],
    root: u32,
    xp: u32,
    xpp: u32,
    near: u32,
    far: u32,
) -> u32
    ensures { lent_links cells.new result sizes.new
        ≡ raised near far (lent_links cells.old root sizes.old) xp xpp }
{
    paint(cells, xp, BLACK);
    paint(cells, xpp, RED);
    rotate(cells, sizes, root, xpp, far, near)
}

// The uncle is not red. Where x stands on the inner side its parent goes down first, and takes x's part.
fn straighten(
    cells: &mut [u32],
    sizes: &mut [u32],
    root: u32,
    x: u32,
    xp: u32,
    xpp: u32,
    near: u32,
    far: u32,
) -> Step
    ensures { turn_of result cells.new sizes.new
        ≡ straightened near far (lent_links cells.old root sizes.old) x xp xpp }
{
    if x == get(cells, xp, far) {
        let low = rotate(cells, sizes, root, xp, near, far);
        let q = get(cells, xp, PARENT);
        let qp = get(cells, q, PARENT);
        let top = raise(cells, sizes, low, q, qp, near, far);
        return (top, Some(xp));
    }
    let top = raise(cells, sizes, root, xp, xpp, near, far);
    (top, Some(x))
}

// The parent stands on the near side of the grandparent. With a red uncle both are painted black, and the loop goes on
// from the grandparent.
fn lift(
    cells: &mut [u32],
    sizes: &mut [u32],
    root: u32,
    x: u32,
    xp: u32,
    xpp: u32,
    near: u32,
    far: u32,
) -> Step
    ensures { turn_of result cells.new sizes.new
        ≡ lifted near far (lent_links cells.old root sizes.old) x xp xpp }
{
    let uncle = get(cells, xpp, far);
    if is_red(cells, uncle) {
        paint(cells, uncle, BLACK);
        paint(cells, xp, BLACK);
        paint(cells, xpp, RED);
        return (root, Some(xpp));
    }
    straighten(cells, sizes, root, x, xp, xpp, near, far)
}

// One turn of balance_insertion: x with no parent is the root and is painted black; a parent that is not red, or is the
// root, ends the loop.
fn insertion_turn(cells: &mut [u32], sizes: &mut [u32], root: u32, x: u32) -> Step
    ensures { turn_of result cells.new sizes.new
        ≡ insertion_turn (lent_links cells.old root sizes.old) x }
{
    let xp = get(cells, x, PARENT);
    if xp == NULL {
        paint(cells, x, BLACK);
        return (x, None);
    }
    if !is_red(cells, xp) {
        return (root, None);
    }
    let xpp = get(cells, xp, PARENT);
    if xpp == NULL {
        return (root, None);
    }
    if get(cells, xpp, LEFT) == xp {
        return lift(cells, sizes, root, x, xp, xpp, LEFT, RIGHT);
    }
    lift(cells, sizes, root, x, xp, xpp, RIGHT, LEFT)
}

// The loop of balance_insertion, at most budget turns of it. Returns the root.
// Form kept: two loops, since one over a closure would owe in its clause what each turn's own contract says.
fn insertion_turns(cells: &mut [u32], sizes: &mut [u32], root: u32, x: u32, budget: u32) -> u32
    ensures { lent_links cells.new result sizes.new
        ≡ insertion_turns budget (lent_links cells.old root sizes.old) x }
{
    let mut top = root;
    let mut at = x;
    for _ in 0..budget {
        let (low, next) = insertion_turn(cells, sizes, top, at);
        top = low;
        let Some(y) = next else {
            return top;
        };
        at = y;
    }
    top
}

// The new slot x is painted red, then the loop runs. Returns the root.
pub(crate) fn balance_insertion(
    cells: &mut [u32],
    sizes: &mut [u32],
    root: u32,
    x: u32,
    budget: u32,
) -> u32
    ensures { lent_links cells.new result sizes.new
        ≡ balanced_insertion budget (lent_links cells.old root sizes.old) x }
{
    paint(cells, x, RED);
    insertion_turns(cells, sizes, root, x, budget)
}

// The outer nephew is red: the sibling takes the parent's colour, its outer child and the parent turn black, and the
// parent goes down. The loop goes on from the root, where it ends.
fn outer_red(
    cells: &mut [u32],
    sizes: &mut [u32],
    root: u32,
    xp: u32,
    y: u32,
    near: u32,
    far: u32,
) -> Step
    ensures { turn_of result cells.new sizes.new
        ≡ outer_red near far (lent_links cells.old root sizes.old) xp y }
{
    let hue = colour(cells, xp);
    paint(cells, y, hue);
    let outer = get(cells, y, far);
    paint(cells, outer, BLACK);
    paint(cells, xp, BLACK);
    let top = rotate(cells, sizes, root, xp, near, far);
    (top, Some(top))
}

// The inner nephew is red and the outer is not: the inner one turns black, the sibling red, and the sibling goes down on
// the far side.
fn inner_red(cells: &mut [u32], sizes: &mut [u32], root: u32, y: u32, near: u32, far: u32) -> u32
    ensures { lent_links cells.new result sizes.new
        ≡ inner_red near far (lent_links cells.old root sizes.old) y }
{
    let inner = get(cells, y, near);
    paint(cells, inner, BLACK);
    paint(cells, y, RED);
    rotate(cells, sizes, root, y, far, near)
}

// The sibling y is not red. With no red nephew it turns red, and the loop goes on from the parent.
fn dark_sibling(
    cells: &mut [u32],
    sizes: &mut [u32],
    root: u32,
    x: u32,
    xp: u32,
    y: u32,
    near: u32,
    far: u32,
) -> Step
    ensures { turn_of result cells.new sizes.new
        ≡ dark_sib near far (lent_links cells.old root sizes.old) x xp y }
{
    let outer = get(cells, y, far);
    if is_red(cells, outer) {
        return outer_red(cells, sizes, root, xp, y, near, far);
    }
    let inner = get(cells, y, near);
    if is_red(cells, inner) {
        let low = inner_red(cells, sizes, root, y, near, far);
        let q = get(cells, x, PARENT);
        let z = get(cells, q, far);
        return outer_red(cells, sizes, low, q, z, near, far);
    }
    paint(cells, y, RED);
    (root, Some(xp))
}

// A red sibling turns black, the parent red, and the parent goes down first.
fn by_sibling(
    cells: &mut [u32],
    sizes: &mut [u32],
    root: u32,
    x: u32,
    xp: u32,
    near: u32,
    far: u32,
) -> Step
    ensures { turn_of result cells.new sizes.new
        ≡ by_sib near far (lent_links cells.old root sizes.old) x xp }
{
    let y = get(cells, xp, far);
    if is_red(cells, y) {
        paint(cells, y, BLACK);
        paint(cells, xp, RED);
        let low = rotate(cells, sizes, root, xp, near, far);
        let q = get(cells, x, PARENT);
        let z = get(cells, q, far);
        return dark_sibling(cells, sizes, low, x, q, z, near, far);
    }
    dark_sibling(cells, sizes, root, x, xp, y, near, far)
}

// One turn of balance_deletion: it ends at null and at the root, before it looks at the colour; x with no parent is the
// root and is painted black; a red x is painted black.
fn deletion_turn(cells: &mut [u32], sizes: &mut [u32], root: u32, x: u32) -> Step
    ensures { turn_of result cells.new sizes.new
        ≡ deletion_turn (lent_links cells.old root sizes.old) x }
{
    if x == NULL {
        return (root, None);
    }
    if x == root {
        return (root, None);
    }
    let xp = get(cells, x, PARENT);
    if xp == NULL {
        paint(cells, x, BLACK);
        return (x, None);
    }
    if is_red(cells, x) {
        paint(cells, x, BLACK);
        return (root, None);
    }
    if get(cells, xp, LEFT) == x {
        return by_sibling(cells, sizes, root, x, xp, LEFT, RIGHT);
    }
    by_sibling(cells, sizes, root, x, xp, RIGHT, LEFT)
}

// From x on, the loop runs for at most budget turns. Returns the root.
// Form kept: two loops, since one over a closure would owe in its clause what each turn's own contract says.
pub(crate) fn balance_deletion(
    cells: &mut [u32],
    sizes: &mut [u32],
    root: u32,
    x: u32,
    budget: u32,
) -> u32
    ensures { lent_links cells.new result sizes.new
        ≡ balanced_deletion budget (lent_links cells.old root sizes.old) x }
{
    let mut top = root;
    let mut at = x;
    for _ in 0..budget {
        let (low, next) = deletion_turn(cells, sizes, top, at);
        top = low;
        let Some(y) = next else {
            return top;
        };
        at = y;
    }
    top
}
