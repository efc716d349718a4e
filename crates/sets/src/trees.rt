// The check of a header's tree: T3 to T6, its count and its chain, which is its own, and its slots in the bin that their hashes name.
ghost use Rattle.std.specs.Prelude.{◌≡◌, ◌/◌, length};
ghost use Rattle.slots.specs.Words.{null};
ghost use Rattle.tree_rules.specs.Chain.{chained};
ghost use Rattle.index_rules.specs.Sound.{leaves};
ghost use Rattle.tree.specs.Rules.{rest_of};
ghost use Rattle.set_rules.specs.Accepting.{is_own, chain_own, tree_home, tree_good, tree_fine};

use crate::lists::is_home;
use slots::{FREE, LEFT, NEXT, NULL, RIGHT, STATE, get};
use tree::chain::chain;
use tree::rules::survey;

// Each slot from the link x down, at most so deep, is in the bin that its hash names.
#[tactic(auto, unfolding(set_rules::specs::Accepting::tree_home))]
fn tree_home(names: &[u64], cells: &[u32], length: u32, i: u32, x: u32, depth: usize) -> bool
    ensures { result ≡ tree_home depth names.now cells.now length i x }
{
    if x == NULL {
        return true;
    }
    if depth == 0 {
        return false;
    }
    is_home(names, length, i, x)
        && tree_home(names, cells, length, i, get(cells, x, LEFT), depth - 1)
        && tree_home(names, cells, length, i, get(cells, x, RIGHT), depth - 1)
}

// The chain from first, over n slots, has as many as the count says, and prev is the reverse of next.
fn chain_fine(n: usize, cells: &[u32], first: u32, count: u32) -> bool
    ensures { result ≡ leaves n count (chained n n cells.now null first) }
{
    let walk = chain(n, cells, first);
    let Some(rest) = walk else {
        return false;
    };
    n - rest == count as usize
}

// Slot x is not free and its hash names bin i of a table of so many bins.
#[tactic(auto, unfolding(set_rules::specs::Accepting::is_own))]
fn is_own(names: &[u64], cells: &[u32], length: u32, i: u32, x: u32) -> bool
    ensures { result ≡ is_own names.now cells.now length i x }
{
    get(cells, x, STATE) != FREE && is_home(names, length, i, x)
}

// Each slot of the chain from first, at most so many, is such a slot.
fn chain_own(names: &[u64], cells: &[u32], length: u32, i: u32, first: u32, most: usize) -> bool
    ensures { result ≡ chain_own most names.now cells.now length i first }
{
    let mut x = first;
    let mut left = most;
    while x != NULL {
        if left == 0 {
            return false;
        }
        let own = is_own(names, cells, length, i, x);
        if !own {
            return false;
        }
        let next = get(cells, x, NEXT);
        x = next;
        left -= 1;
    }
    true
}

// A tree of m slots that obeys T3 to T6: its header has a root, a first and that count, its chain is as long and its own, and each slot is
// in its bin.
fn tree_good(
    names: &[u64],
    cells: &[u32],
    length: u32,
    i: u32,
    root: u32,
    first: u32,
    count: u32,
    m: usize,
) -> bool
    ensures { result ≡ tree_good names.now cells.now length i root first count m }
{
    let n = names.len() / 2;
    root != NULL
        && first != NULL
        && m == count as usize
        && chain_fine(n, cells, first, count)
        && chain_own(names, cells, length, i, first, n)
        && tree_home(names, cells, length, i, root, n)
}

// The visits left after the tree of a header, or that it goes wrong.
pub(crate) fn tree_fine(
    names: &[u64],
    cells: &[u32],
    length: u32,
    i: u32,
    root: u32,
    first: u32,
    count: u32,
    visits: usize,
) -> Option<usize>
    ensures { rest_of result ≡ tree_fine names.now cells.now length i root first count visits }
{
    let rest = survey(names, cells, root, visits)?;
    let good = tree_good(names, cells, length, i, root, first, count, visits - rest);
    if !good {
        return None;
    }
    Some(rest)
}
