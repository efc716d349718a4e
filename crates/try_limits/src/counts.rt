// What is counted over a whole tree: pairs and neighbours after a rollback, positions.
ghost use Rattle.std.specs.Prelude.{◌≤◌};

use crate::pairs::{drained, hash_of, turn_of};
use crate::words::Words;
use index::find::find;
use ranks::kth::kth;
use ranks::position::position;
use slots::{HASH, KEY, NEXT, NULL, PLACE, get, name};
use tree::find::Found;

// How many of the first n are as they have to be.
// Form kept: try_damage has the same few lines; a public routine for both, with a clause that says the count of a closure, is no plainer.
pub(crate) fn count<F: Fn(u32) -> bool>(n: u32, is_right: F) -> u32
    requires { F.IsAlwaysCallable is_right }
    ensures { result ≤ n }
{
    let mut count = 0;
    for i in 0..n {
        if is_right(i) {
            count += 1;
        }
    }
    count
}

// Whether the pair that was removed after i others is there with its place exactly if its line was undone: the last 1,024 removes are.
pub fn is_restored(x: &Words, i: u32) -> bool {
    let k = drained(i);
    match find(
        x.lent_names(),
        x.lent_cells(),
        x.lent_head(),
        hash_of(k),
        k as u64,
    ) {
        Ok(Found::At(slot, _)) => 3072 <= i && get(&x.cells, slot, PLACE) == k,
        _ => i < 3072,
    }
}

// How many of the pairs below pair k are left once every third pair, from pair 0 on, has gone.
pub fn left_below(k: u32) -> u32 {
    k.wrapping_sub(k / 3 + 1)
}

// Whether a pair has the position wanted.
fn is_at(x: &Words, hash: u64, key: u64, wanted: u32) -> bool {
    match position(
        x.lent_names(),
        x.lent_cells(),
        x.lent_head(),
        x.lent_sizes(),
        hash,
        key,
    ) {
        Ok(at) => at == wanted,
        _ => false,
    }
}

// Whether pair k has the position wanted.
pub fn is_ranked(x: &Words, k: u32, wanted: u32) -> bool {
    is_at(x, hash_of(k), k as u64, wanted)
}

// Whether there is a position k, and its slot's pair has that position again.
pub fn is_undone(x: &Words, k: u32) -> bool {
    match kth(
        x.lent_names(),
        x.lent_cells(),
        x.lent_head(),
        x.lent_sizes(),
        k,
    ) {
        Ok(slot) => is_at(x, name(&x.names, slot, HASH), name(&x.names, slot, KEY), k),
        _ => false,
    }
}

// Whether slot x has one behind it in the chain whose pair went in before its own.
fn is_listed(names: &[u64], cells: &[u32], x: u32) -> bool {
    let y = get(cells, x, NEXT);
    y != NULL && turn_of(name(names, y, KEY)) < turn_of(name(names, x, KEY))
}

// How many neighbours of the chain stand in the order that they had when the tree was full: the last that went in first.
pub fn listed(x: &Words) -> u32 {
    let mut sum: u32 = 0;
    let mut slot = get(&x.head, 0, 1);
    for _ in 0..4096 {
        sum = sum.wrapping_add(u32::from(is_listed(&x.names, &x.cells, slot)));
        slot = get(&x.cells, slot, NEXT);
    }
    sum
}
