// What is to be kept, by the words of section 14 and quadratic loops. Of the library it has the reads of a word alone.
use crate::counts::{one_if, sum};
use slots::{BLACK, FREE, HASH, KEY, PLACE, RED, STATE, get, name};

// Slot i has state 1 or 2.
fn has_name(cells: &[u32], i: u32) -> bool {
    let state = get(cells, i, STATE);
    state == BLACK || state == RED
}

// Slot i has the pair of slot j of another tree.
fn same_pair(names: &[u64], i: u32, others: &[u64], j: u32) -> bool {
    name(names, i, HASH) == name(others, j, HASH) && name(names, i, KEY) == name(others, j, KEY)
}

// Slot i has the pair and the place of slot j of another tree.
pub fn same_entry(
    names: &[u64],
    cells: &[u32],
    i: u32,
    others: &[u64],
    words: &[u32],
    j: u32,
) -> bool {
    same_pair(names, i, others, j) && get(cells, i, PLACE) == get(words, j, PLACE)
}

// The lowest slot below i that has state 1 or 2 and its pair; i where there is none.
fn lowest_like(names: &[u64], cells: &[u32], i: u32) -> u32 {
    for j in 0..i {
        if has_name(cells, j) && same_pair(names, i, names, j) {
            return j;
        }
    }
    i
}

// What the report is to say of slot i.
// Form kept: numbers, since these are the words of the report (section 14): 0, 1, 2, and behind them a repeat with its slot.
pub fn told(names: &[u64], cells: &[u32], i: u32) -> u32 {
    if get(cells, i, STATE) == FREE {
        return 1;
    }
    if !has_name(cells, i) {
        return 2;
    }
    let s = lowest_like(names, cells, i);
    if s == i {
        return 0;
    }
    sum(s, 3)
}

// Slot i is told to be kept, free, of unknown state (0, 1, 2), or a repeat (3).
fn is_told(names: &[u64], cells: &[u32], i: u32, what: u32) -> bool {
    let word = told(names, cells, i);
    word == what || (what == 3 && 3 < word)
}

// How many slots below i are told to be so.
pub fn told_below(names: &[u64], cells: &[u32], i: u32, what: u32) -> u32 {
    let mut count: u32 = 0;
    for j in 0..i {
        count = sum(count, one_if(is_told(names, cells, j, what)));
    }
    count
}

// The entry of slot i is in one of the n slots of another tree.
fn holds(names: &[u64], cells: &[u32], i: u32, others: &[u64], words: &[u32], n: u32) -> bool {
    for k in 0..n {
        if get(words, k, STATE) != FREE && same_entry(names, cells, i, others, words, k) {
            return true;
        }
    }
    false
}

// Slot i of a tree is not free, and its entry is not in another tree.
pub fn is_lost(
    names: &[u64],
    cells: &[u32],
    i: u32,
    others: &[u64],
    words: &[u32],
    n: u32,
) -> bool {
    get(cells, i, STATE) != FREE && !holds(names, cells, i, others, words, n)
}

// How many of the n slots of a tree have an entry that is not in another.
pub fn lost(names: &[u64], cells: &[u32], others: &[u64], words: &[u32], n: u32) -> u32 {
    let mut count: u32 = 0;
    for i in 0..n {
        count = sum(count, one_if(is_lost(names, cells, i, others, words, n)));
    }
    count
}
