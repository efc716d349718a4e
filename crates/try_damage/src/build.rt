// A sound tree of 47 used slots among 64. A position is a place in the reading order of a perfect tree of 63, from 1;
// the tree has its even positions and 16 of its leaves.
ghost use Rattle.std.specs.Prelude.{◌≤◌};

use index::fresh::fresh;
use slots::{
    BLACK, HASH, KEY, LEFT, NEXT, NULL, PARENT, PLACE, PREV, RED, RIGHT, STATE, put, put_name,
};

pub const SLOTS: u32 = 64;

// The position of the root.
const MIDDLE: u32 = 32;

// The slot of a position: used and free slots are mixed, and slot 0 is free.
fn slot_of(p: u32) -> u32 {
    (p % 64) * 5 % 64
}

// Whether there is a slot at a position. Of four neighbours on the last level but one, the first has two children, the second a
// left one, the third a right one, and the fourth none.
fn stands(p: u32) -> bool {
    match p % 16 {
        0 => p % 64 != 0,
        7 | 9 | 13 | 15 => false,
        _ => true,
    }
}

// How far the children of a position are, to the left and to the right; 0 on the last level.
fn reach(p: u32) -> u32
    ensures { result ≤ 16 }
{
    match p % 32 {
        0 => 16,
        16 => 8,
        8 | 24 => 4,
        4 | 12 | 20 | 28 => 2,
        2 | 6 | 10 | 14 | 18 | 22 | 26 | 30 => 1,
        _ => 0,
    }
}

// The leaves on the last level are red, and so are the four slots on the third.
fn colour(p: u32) -> u32 {
    if p % 2 == 1 || p % 16 == 8 {
        RED
    } else {
        BLACK
    }
}

// Links the slot of p and its child, if there is one at c, along the field f.
fn hang(cells: &mut [u32], p: u32, f: u32, c: u32) {
    if stands(c) {
        put(cells, slot_of(p), f, slot_of(c));
        put(cells, slot_of(c), PARENT, slot_of(p));
    }
}

// The hashes rise by groups of neighbours, some past 32 bits. In a group all are equal, and the keys rise by one; from group to
// group the keys fall.
fn baptize(names: &mut [u64], p: u32) {
    let group = (p as u64) / 4;
    let member = (p as u64) % 4;
    put_name(names, slot_of(p), HASH, group % 16 * 600000000);
    put_name(names, slot_of(p), KEY, (15 - group % 16) * 40 + 62 + member);
}

// The place and the state of the slot of p.
fn fill(cells: &mut [u32], p: u32) {
    put(cells, slot_of(p), PLACE, p);
    put(cells, slot_of(p), STATE, colour(p));
}

// The children of the slot of p.
fn join(cells: &mut [u32], p: u32) {
    let by = reach(p);
    if 0 < by {
        hang(cells, p, LEFT, p.wrapping_sub(by));
        hang(cells, p, RIGHT, p.wrapping_add(by));
    }
}

// Whether there is a slot at position q and it is p or comes below it: on either side as far as twice the children's distance.
fn covers(p: u32, q: u32) -> bool {
    let far = 2 * reach(p);
    stands(q) && (q == p || (q < p.wrapping_add(far) && p < q.wrapping_add(far)))
}

// How many slots, or positions, are such.
// Form kept: try_limits has the same few lines; a public routine for both, with a clause that says the count of a closure, is no plainer.
pub(crate) fn count<F: Fn(u32) -> bool>(is_such: F) -> u32
    requires { F.IsAlwaysCallable is_such }
    ensures { result ≤ 64 }
{
    let mut count = 0;
    for i in 0..SLOTS {
        if is_such(i) {
            count += 1;
        }
    }
    count
}

// The slot of p, with its place in the tree if there is one at p.
fn stand(names: &mut [u64], cells: &mut [u32], sizes: &mut [u32], p: u32) {
    if stands(p) {
        baptize(names, p);
        fill(cells, p);
        join(cells, p);
        put(sizes, 0, slot_of(p), count(|q| covers(p, q)));
    }
}

// Chains slot i behind the last of a chain: the first and the last slot then.
fn chain_slot(cells: &mut [u32], ends: Option<(u32, u32)>, i: u32) -> (u32, u32) {
    match ends {
        Some((first, last)) => {
            put(cells, last, NEXT, i);
            put(cells, i, PREV, last);
            (first, i)
        }
        None => (i, i),
    }
}

// Chains the slots in an order that is neither that of the tree nor that of their numbers: the first of them; null if there is none.
fn chain(cells: &mut [u32]) -> u32 {
    let mut ends = None;
    for t in 0..SLOTS {
        let p = t * 11 % 64;
        if stands(p) {
            ends = Some(chain_slot(cells, ends, slot_of(p)));
        }
    }
    ends.map_or(NULL, |(first, _)| first)
}

// The words of a tree of 64 slots.
#[derive(Clone, Copy)]
pub struct Tree {
    pub names: [u64; 128],
    pub cells: [u32; 448],
    pub head: [u32; 3],
    pub sizes: [u32; 64],
}

// The tree, in an empty index.
pub fn grown() -> Tree {
    let mut names = [0u64; 128];
    let mut cells = [0u32; 448];
    let mut head = [0u32; 3];
    let mut sizes = [0u32; 64];
    let _ = fresh(&mut names, &mut cells, &mut head, &mut sizes, &mut [0]);
    for p in 0..SLOTS {
        stand(&mut names, &mut cells, &mut sizes, p);
    }
    let first = chain(&mut cells);
    Tree {
        names,
        cells,
        head: [slot_of(MIDDLE), first, 47],
        sizes,
    }
}
