// The passes that write: along slots by next, at most so many.
ghost use Rattle.std.specs.Prelude.{◌≡◌, [], ◌/◌, length};
ghost use Rattle.slots.specs.Words.{null, pick};
ghost use Rattle.redblack.specs.Links.{lent_links};
ghost use Rattle.move_rules.specs.Passes.{halves_ended, threaded, plain_slot, plained, backed, joined, joined_from};

use links::hang::hang_slot;
use sets::lists::is_home;
use slots::{BLACK, HASH, KEY, LEFT, NEXT, NULL, PARENT, PREV, RIGHT, STATE, get, name, put};

// One of two slots.
fn either(yes: bool, a: u32, b: u32) -> u32
    ensures { result ≡ pick yes a b }
{
    if yes { a } else { b }
}

// The slots a and b are the last of their halves.
fn end_halves(cells: &mut [u32], a: u32, b: u32)
    ensures { cells.new ≡ halves_ended cells.old a b }
{
    put(cells, a, NEXT, NULL);
    put(cells, b, NEXT, NULL);
}

// Each half of the slots from the link first is strung by next: those whose hash names bin i of a table of so many bins, and the others.
pub(crate) fn thread(names: &[u64], cells: &mut [u32], length: u32, i: u32, first: u32, most: u32)
    ensures { cells.new
        ≡ threaded most names.now length i cells.old null null first }
{
    let mut a = NULL;
    let mut b = NULL;
    let mut p = first;
    for _ in 0..most {
        if p == NULL {
            break;
        }
        let next = get(cells, p, NEXT);
        let home = is_home(names, length, i, p);
        let last = either(home, a, b);
        put(cells, last, NEXT, p);
        a = either(home, p, a);
        b = either(home, b, p);
        p = next;
    }
    end_halves(cells, a, b);
}

// Slot x as a list's: state 1, and of its links only next, which it has.
fn plain_slot(cells: &mut [u32], x: u32)
    ensures { cells.new ≡ plain_slot cells.old x }
{
    put(cells, x, STATE, BLACK);
    put(cells, x, PARENT, NULL);
    put(cells, x, LEFT, NULL);
    put(cells, x, RIGHT, NULL);
    put(cells, x, PREV, NULL);
}

// The slots from the link first as a list's.
pub(crate) fn plain(cells: &mut [u32], first: u32, most: u32)
    ensures { cells.new ≡ plained most cells.old first }
{
    let mut p = first;
    for _ in 0..most {
        if p == NULL {
            break;
        }
        let next = get(cells, p, NEXT);
        plain_slot(cells, p);
        p = next;
    }
}

// The slots from the link first as a chain: each gets its prev.
fn back(cells: &mut [u32], first: u32, most: u32)
    ensures { cells.new ≡ backed most cells.old null first }
{
    let mut q = NULL;
    let mut p = first;
    for _ in 0..most {
        if p == NULL {
            break;
        }
        let next = get(cells, p, NEXT);
        put(cells, p, PREV, q);
        q = p;
        p = next;
    }
}

// The slot x joins the tree from root. A frozen set carries no sizes: those that are lent are none.
fn join(names: &[u64], cells: &mut [u32], root: u32, x: u32, n: u32) -> u32
    requires { n ≡ length names.now / 2 }
    ensures { lent_links cells.new result []
        ≡ joined names.now (lent_links cells.old root []) x }
{
    let mut none: [u32; 1] = [0];
    let hash = name(names, x, HASH);
    let key = name(names, x, KEY);
    hang_slot(names, cells, &mut none[0..0], root, x, hash, key, n)
}

// The slots from the link first join an empty tree, one after the other. Returns its root.
fn join_all(names: &[u64], cells: &mut [u32], first: u32, n: u32) -> u32
    requires { n ≡ length names.now / 2 }
    ensures { lent_links cells.new result []
        ≡ joined_from n names.now (lent_links cells.old null []) first }
{
    let mut root = NULL;
    let mut p = first;
    for _ in 0..n {
        if p == NULL {
            break;
        }
        let next = get(cells, p, NEXT);
        root = join(names, cells, root, p, n);
        p = next;
    }
    root
}

// The tree of the slots from the link first, whose chain they are. Returns its root.
pub(crate) fn grow(names: &[u64], cells: &mut [u32], first: u32, n: u32) -> u32
    requires { n ≡ length names.now / 2 }
    ensures { lent_links cells.new result []
        ≡ joined_from n names.now (lent_links (backed n cells.old null first) null []) first }
{
    back(cells, first, n);
    join_all(names, cells, first, n)
}
