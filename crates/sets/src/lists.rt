// The check of a bin's list: it ends and repeats no pair, and its slots are a list's and in the bin that their hashes name.
// Here the pair of each slot is compared with those after it, which is the quicker way for a short list.
ghost use Rattle.std.specs.Prelude.{◌≡◌};
ghost use Rattle.tree.specs.Rules.{rest_of};
ghost use Rattle.set_rules.specs.Accepting.{is_home, is_list_slot, same_pair, list_slot_fine, list_fine};
ghost use Rattle.set_rules.specs.Accepting.{unlike as differs};
ghost use Rattle.sets.specs.Lists.{slot_home};

use crate::bin::index;
use slots::{BLACK, HASH, KEY, LEFT, NEXT, NULL, PARENT, PREV, RIGHT, STATE, get, name};

// The hash of slot x names bin i of a table of so many bins.
#[tactic(auto, unfolding(set_rules::specs::Accepting::is_home))]
pub fn is_home(names: &[u64], length: u32, i: u32, x: u32) -> bool
    ensures { result ≡ is_home names.now length i x }
{
    let hash = name(names, x, HASH);
    index(length, hash) == i
}

// Slot x has state 1 and only its next link set.
#[tactic(auto, unfolding(set_rules::specs::Accepting::is_list_slot))]
fn is_list_slot(cells: &[u32], x: u32) -> bool
    ensures { result ≡ is_list_slot cells.now x }
{
    let state = get(cells, x, STATE);
    let parent = get(cells, x, PARENT);
    let left = get(cells, x, LEFT);
    let right = get(cells, x, RIGHT);
    let prev = get(cells, x, PREV);
    state == BLACK && parent == NULL && left == NULL && right == NULL && prev == NULL
}

// Slots x and y have one pair.
#[tactic(auto, unfolding(set_rules::specs::Accepting::same_pair))]
fn same_pair(names: &[u64], x: u32, y: u32) -> bool
    ensures { result ≡ same_pair names.now x y }
{
    name(names, x, HASH) == name(names, y, HASH) && name(names, x, KEY) == name(names, y, KEY)
}

// The pair of slot x is that of no slot from the link first by next, and these are at most so many.
fn unlike(names: &[u64], cells: &[u32], x: u32, first: u32, most: usize) -> bool
    ensures { result ≡ differs most names.now cells.now x first }
{
    let mut y = first;
    let mut left = most;
    while y != NULL {
        if left == 0 {
            return false;
        }
        let same = same_pair(names, x, y);
        if same {
            return false;
        }
        let next = get(cells, y, NEXT);
        y = next;
        left -= 1;
    }
    true
}

// Slot x is one of the set's, a list's, and in the bin that its hash names.
#[tactic(auto, unfolding(crate::specs::Lists::slot_home))]
pub(crate) fn slot_home(names: &[u64], cells: &[u32], length: u32, i: u32, x: u32) -> bool
    ensures { result ≡ slot_home names.now cells.now length i x }
{
    (x as usize) < names.len() / 2 && is_list_slot(cells, x) && is_home(names, length, i, x)
}

// Slot x may stand in the list of bin i of a table of so many bins, where visits are left for the slots after it.
fn list_slot_fine(names: &[u64], cells: &[u32], length: u32, i: u32, x: u32, visits: usize) -> bool
    ensures { result ≡ list_slot_fine visits names.now cells.now length i x }
{
    slot_home(names, cells, length, i, x) && unlike(names, cells, x, get(cells, x, NEXT), visits)
}

// The visits left after the list from first, or that it goes wrong.
pub(crate) fn by_pairs(
    names: &[u64],
    cells: &[u32],
    length: u32,
    i: u32,
    first: u32,
    visits: usize,
) -> Option<usize>
    ensures { rest_of result ≡ list_fine visits names.now cells.now length i first }
{
    let mut x = first;
    let mut left = visits;
    while x != NULL {
        if left == 0 {
            return None;
        }
        left -= 1;
        let fine = list_slot_fine(names, cells, length, i, x, left);
        if !fine {
            return None;
        }
        let next = get(cells, x, NEXT);
        x = next;
    }
    Some(left)
}
