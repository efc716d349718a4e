// A slot leaves the tree: "remove" after the check.
ghost use Rattle.std.specs.Prelude.{◌≡◌, eqb};
ghost use Rattle.slots.specs.Words.{null, pick, prev, next, cell};
ghost use Rattle.index_rules.specs.Live.{lent_tree};
ghost use Rattle.index_rules.specs.Remove.{unchained, wiped};
ghost use Rattle.index.specs.Frees.{shrunk_if};

use crate::grow::{head_put, put_pair};
use links::unlink::unlink_slot;
use slots::{
    COUNT, FIRST, FREE, LEFT, MOST_NAMES, NEXT, NULL, PARENT, PLACE, PREV, RIGHT, ROOT, STATE, get,
    put, word,
};

// Slot x leaves the chain: what stood before it leads to what stood after, and back.
#[tactic(auto, unfolding(index_rules::specs::Remove::unchained))]
fn unchain(cells: &mut [u32], x: u32)
    ensures { cells.new ≡ unchained cells.old x }
{
    let before = get(cells, x, PREV);
    let after = get(cells, x, NEXT);
    put(cells, before, NEXT, after);
    put(cells, after, PREV, before);
}

// A freed slot is cleared whole: all zero with null links.
#[tactic(auto, unfolding(index_rules::specs::Remove::wiped))]
pub(crate) fn wipe(cells: &mut [u32], x: u32)
    ensures { cells.new ≡ wiped cells.old x }
{
    put(cells, x, PLACE, 0);
    put(cells, x, STATE, FREE);
    put(cells, x, PARENT, NULL);
    put(cells, x, LEFT, NULL);
    put(cells, x, RIGHT, NULL);
    put(cells, x, PREV, NULL);
    put(cells, x, NEXT, NULL);
}

// The first of the chain once slot x has left it.
fn new_first(cells: &[u32], first: u32, x: u32) -> u32
    ensures { result ≡ pick (eqb (cell cells.now x prev) null) (cell cells.now x next) first }
{
    let before = get(cells, x, PREV);
    if before == NULL {
        return get(cells, x, NEXT);
    }
    first
}

// Slot x leaves the chain and the tree, is cleared, and counts no more. Nothing where the names are more than 4,096
// slots have.
#[tactic(auto, unfolding(index_rules::specs::Remove::shrunk))]
pub fn shrink(names: &mut [u64], cells: &mut [u32], head: &mut [u32], sizes: &mut [u32], x: u32)
    ensures { lent_tree names.new cells.new head.new sizes.new
        ≡ shrunk_if (lent_tree names.old cells.old head.old sizes.old) x }
{
    if MOST_NAMES < names.len() {
        return;
    }
    let n = (names.len() / 2) as u32;
    let root = word(head, ROOT, NULL);
    let first = new_first(cells, word(head, FIRST, NULL), x);
    let count = word(head, COUNT, NULL).saturating_sub(1);
    put_pair(names, x, 0, 0);
    unchain(cells, x);
    let top = unlink_slot(cells, sizes, root, x, n);
    wipe(cells, x);
    head_put(head, top, first, count);
}
