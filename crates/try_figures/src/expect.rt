// What is expected, counted apart: the blocks of an input by their lengths, and what each of the first input's files adds, from a table
// that was counted by hand off docs/sets.
use crate::trial::more;
use slots::{put_word, word};

pub const TOTALS: usize = 39;

// What comes of an input: the totals, and whether a set came after a million.
#[derive(Clone, Copy, PartialEq)]
pub struct Figures {
    pub totals: [u64; TOTALS],
    pub over: bool,
}

// The files of the first input; its last block is cut short.
pub const FILES: usize = 17;

// What a set adds: its entries, lists and trees, and the entries found at one look and at two.
#[derive(Clone, Copy)]
struct Share {
    entries: u64,
    lists: u64,
    trees: u64,
    ones: u64,
    twos: u64,
}

fn adds(entries: u64, lists: u64, trees: u64, ones: u64, twos: u64) -> Option<Share> {
    Some(Share {
        entries,
        lists,
        trees,
        ones,
        twos,
    })
}

// The list of 34 slots stands apart.
const LONG: usize = 11;

// What file k adds; none for one that is refused.
fn table(k: usize) -> Option<Share> {
    match k {
        0 => adds(3, 2, 0, 2, 1), // list
        2 => adds(3, 0, 1, 1, 2), // tree
        4 => adds(4, 3, 0, 3, 1), // forwarded
        7 => adds(0, 0, 0, 0, 0), // empty
        8 => adds(4, 1, 1, 2, 2), // sample
        14 => adds(5, 2, 1, 3, 2), // forwarded_twice
        _ => None,
    }
}

// Word j with v more.
fn add(totals: &mut [u64; TOTALS], j: usize, v: u64) {
    let total = word(totals, j, 0);
    put_word(totals, j, more(total, v));
}

// The list of 34: an entry at each number of looks from 1 to 34, which are 595 in all. The rows 1 to 32 have one each.
fn add_long(totals: &mut [u64; TOTALS]) {
    add(totals, 0, 1);
    add(totals, 2, 34);
    add(totals, 3, 1);
    add(totals, 5, 595);
    for row in 6..38 {
        add(totals, row, 1);
    }
    add(totals, 38, 2);
}

fn add_table(totals: &mut [u64; TOTALS], share: Option<Share>) {
    match share {
        Some(t) => {
            add(totals, 0, 1);
            add(totals, 2, t.entries);
            add(totals, 3, t.lists);
            add(totals, 4, t.trees);
            add(totals, 5, more(t.ones, more(t.twos, t.twos)));
            add(totals, 6, t.ones);
            add(totals, 7, t.twos);
        }
        None => add(totals, 1, 1),
    }
}

// File k; with a million sets it is told that one came after them.
fn add_file(figures: &mut Figures, k: usize) {
    if 1000000 <= more(figures.totals[0], figures.totals[1]) {
        figures.over = true;
    } else if k == LONG {
        add_long(&mut figures.totals);
    } else {
        add_table(&mut figures.totals, table(k));
    }
}

// Byte k; 0 behind the last.
fn byte(bytes: &[u8], k: usize) -> u8 {
    word(bytes, k, 0)
}

fn place(a: usize, b: usize) -> usize {
    a.wrapping_add(b)
}

// Where the block that begins at a place ends, by its length.
fn block_end(bytes: &[u8], at: usize) -> usize {
    let length = u32::from_le_bytes([
        byte(bytes, at),
        byte(bytes, place(at, 1)),
        byte(bytes, place(at, 2)),
        byte(bytes, place(at, 3)),
    ]);
    place(at, place(4, length as usize))
}

// The figures from these on, of the first so many bytes of the first input.
pub fn expected(bytes: &[u8], end: usize, from: Figures) -> Figures {
    let mut figures = from;
    let mut at = 0;
    for k in 0..FILES {
        let next = block_end(bytes, at);
        if end < next {
            break;
        }
        add_file(&mut figures, k);
        at = next;
    }
    if at < end {
        add_file(&mut figures, FILES);
    }
    figures
}
