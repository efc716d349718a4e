// The check of a bin's list of any length: the slots of a long one are hung in a tree, and a repeated pair is found there.
ghost use Rattle.std.specs.Prelude.{◌≡◌, ◌≤◌, length};
ghost use Rattle.slots.specs.Words.{most_names};
ghost use Rattle.tree.specs.Rules.{rest_of};
ghost use Rattle.set_rules.specs.Accepting.{list_fine};
ghost use Rattle.sets.specs.Lists.{runs_over};

use crate::lists::{by_pairs, slot_home};
use links::hang::hang_slot;
use slots::{HASH, KEY, MOST_CELLS, MOST_NAMES, MOST_SLOTS, NEXT, NULL, get, name};
use tree::find::{Found, find_tree_node};

// A list of so many slots is short: its pairs are compared in about the time in which the words of a tree are cleared and its slots hung.
const SHORT: u32 = 64;

// From the link first, next visits more slots than a short list has.
fn is_long(cells: &[u32], first: u32) -> bool
    ensures { result ≡ runs_over 64 cells.now first }
{
    let mut x = first;
    let mut left = SHORT;
    while x != NULL {
        if left == 0 {
            return true;
        }
        left -= 1;
        let next = get(cells, x, NEXT);
        x = next;
    }
    false
}

// The visits left after the list from first, or that it goes wrong. The pair of each slot is looked for in a tree of the slots before
// it, and the slot is hung there. The tree's words take 131,072 bytes of stack, whatever the list.
fn by_tree(
    names: &[u64],
    cells: &[u32],
    bins: u32,
    i: u32,
    first: u32,
    visits: usize,
) -> Option<usize>
    requires { length names.now ≤ most_names }
    ensures { rest_of result ≡ list_fine visits names.now cells.now bins i first }
{
    // Form kept: arrays of the most words, since the library has no heap.
    let mut links = [0u32; MOST_CELLS];
    let mut sizes = [0u32; MOST_SLOTS];
    let mut root = NULL;
    let mut x = first;
    let mut left = visits;
    while x != NULL {
        if left == 0 {
            return None;
        }
        left -= 1;
        let home = slot_home(names, cells, bins, i, x);
        if !home {
            return None;
        }
        let hash = name(names, x, HASH);
        let key = name(names, x, KEY);
        match find_tree_node(names, &links, root, hash, key) {
            Found::Nothing(_) => {}
            Found::At(_, _) | Found::Lost(_) => return None,
        }
        let top = hang_slot(
            names,
            &mut links,
            &mut sizes,
            root,
            x,
            hash,
            key,
            MOST_SLOTS as u32,
        );
        root = top;
        let next = get(cells, x, NEXT);
        x = next;
    }
    Some(left)
}

// The visits left after the list from first, or that it goes wrong. No list has more slots than there are, so that visits beyond their
// number are left. Acceptance never has any; but a function that calls itself is put into no caller by the compiler, and no callee with so
// many words of its own is put into it. Else those of by_tree would stand in the frame of every bin.
pub(crate) fn list_fine(
    names: &[u64],
    cells: &[u32],
    bins: u32,
    i: u32,
    first: u32,
    visits: usize,
) -> Option<usize>
    ensures { rest_of result ≡ list_fine visits names.now cells.now bins i first }
{
    let long = is_long(cells, first);
    if !long || MOST_NAMES < names.len() {
        return by_pairs(names, cells, bins, i, first, visits);
    }
    let n = names.len() / 2;
    if n < visits {
        let left = list_fine(names, cells, bins, i, first, n)?;
        return Some(left + (visits - n));
    }
    by_tree(names, cells, bins, i, first, visits)
}
