// Makes a set with a bin that is to be moved: bin 1 of table 0, or bin 3 of table 1, whose parent is Moved.
ghost use Rattle.std.specs.Prelude.{◌≤◌};

use crate::words::{BINS, CELLS, HEADS, NAMES};
use index::fresh::fresh;
use index::insert::insert;
use slots::{
    BLACK, COUNT, FIRST, HASH, KEY, NEXT, NULL, PLACE, ROOT, STATE, put, put_name, put_word,
};

// The table, the entries of each half, whether they are a tree, whether those of a half have one hash, and the set's headers.
#[derive(Clone, Copy)]
pub struct Trial {
    pub table: u32,
    pub low: u32,
    pub high: u32,
    pub tree: bool,
    pub equal: bool,
    pub headers: u32,
}

// The bins of the table, the bin that is moved, and where its word stands.
pub fn length_of(t: Trial) -> u32
    ensures { result ≤ 4 }
{
    if t.table == 0 { 2 } else { 4 }
}

pub fn bin_of(t: Trial) -> u32
    ensures { result ≤ 3 }
{
    if t.table == 0 { 1 } else { 3 }
}

pub fn word_of(t: Trial) -> usize {
    if t.table == 0 { 1 } else { 5 }
}

// The entries of the bin.
pub fn entries_of(t: Trial) -> u32 {
    std::num::wrapping_add_u32(t.low, t.high)
}

// These and the slots beside them: one, and where table 1 is moved another.
pub fn used_of(t: Trial) -> u32 {
    let more = std::num::wrapping_add_u32(t.table, 1);
    std::num::wrapping_add_u32(entries_of(t), more)
}

// Whether entry x belongs to the low half: the two halves take turns while both have some.
fn is_low(t: Trial, x: u32) -> bool {
    if t.high < t.low {
        return x % 2 == 0 || t.high <= x / 2;
    }
    x % 2 == 0 && x / 2 < t.low
}

// What is added to a hash that changes no bin of the three tables.
fn spread(t: Trial, x: u32) -> u64
    ensures { result ≤ 24 }
{
    if t.equal {
        return 0;
    }
    8 * (x as u64 * 3 % 4)
}

fn hash_of(t: Trial, x: u32) -> u64 {
    let near = bin_of(t) as u64 + spread(t, x);
    if is_low(t, x) {
        return near;
    }
    near + length_of(t) as u64
}

// Sixteen keys, none of them twice.
fn key_of(x: u32) -> u64 {
    x as u64 * 7 % 16 + 1
}

// A number of 32 bits.
fn narrow(x: u64) -> u32 {
    if x < 4294967296 { x as u32 } else { NULL }
}

// The p-th slot of a list of n, none of whose numbers of entries 5 divides, so that no slot comes twice; null behind the last.
fn slot_at(p: u32, n: u32) -> u32 {
    if p < n {
        return narrow(p as u64 * 5 % n as u64);
    }
    NULL
}

// A black slot with no links.
fn put_slot(names: &mut [u64; NAMES], cells: &mut [u32; CELLS], x: u32, hash: u64, key: u64) {
    put_name(names, x, HASH, hash);
    put_name(names, x, KEY, key);
    put(cells, x, STATE, BLACK);
    put(cells, x, PLACE, 200);
}

// The entries as a list.
fn put_list(names: &mut [u64; NAMES], cells: &mut [u32; CELLS], t: Trial) {
    let n = entries_of(t);
    for p in 0..n {
        let x = slot_at(p, n);
        put_slot(names, cells, x, hash_of(t, x), key_of(x));
        put(cells, x, PLACE, std::num::wrapping_add_u32(100, x));
        put(cells, x, NEXT, slot_at(p + 1, n));
    }
}

// The entries as a tree, which inserts build; its chain begins at the last.
fn put_tree(
    names: &mut [u64; NAMES],
    cells: &mut [u32; CELLS],
    head: &mut [u32; 3],
    sizes: &mut [u32; 16],
    lines: &mut [u64; 97],
    t: Trial,
) {
    let n = entries_of(t);
    for x in 0..n {
        let place = std::num::wrapping_add_u32(100, x);
        let _ = insert(
            names,
            cells,
            head,
            sizes,
            lines,
            hash_of(t, x),
            key_of(x),
            place,
        );
    }
}

// The three words of header h.
pub fn put_header(heads: &mut [u32; HEADS], h: u32, root: u32, first: u32, count: u32) {
    let at = 3 * h as usize;
    put_word(heads, at, root);
    put_word(heads, at + 1, first);
    put_word(heads, at + 2, count);
}

// What stands beside the bin: bin 0 of table 0 is a tree of one slot under header 0; where table 1 is moved, bin 1 of table 0 is Moved, and
// bin 1 of table 1 a list of one slot.
fn put_others(
    bins: &mut [u32; BINS],
    heads: &mut [u32; HEADS],
    names: &mut [u64; NAMES],
    cells: &mut [u32; CELLS],
    t: Trial,
) {
    let n = entries_of(t);
    put_slot(names, cells, n, 0, 1);
    put_header(heads, 0, n, n, 1);
    put_word(bins, 0, 4098);
    if t.table == 1 {
        let m = std::num::wrapping_add_u32(n, 1);
        put_slot(names, cells, m, 1, 1);
        put_word(bins, 1, 1);
        put_word(bins, 3, std::num::wrapping_add_u32(m, 2));
    }
}

// The word of the bin: its list begins at slot 0, its tree has the last header.
fn put_bin(bins: &mut [u32; BINS], heads: &mut [u32; HEADS], head: &[u32; 3], t: Trial) {
    let n = entries_of(t);
    if n == 0 {
        return;
    }
    if t.tree {
        let own = std::num::wrapping_sub_u32(t.headers, 1);
        put_header(heads, own, head[ROOT], head[FIRST], head[COUNT]);
        put_word(bins, word_of(t), std::num::wrapping_add_u32(own, 4098));
        return;
    }
    put_word(bins, word_of(t), 2);
}

// Four headers that no bin names.
fn blank_heads(heads: &mut [u32; HEADS]) {
    put_header(heads, 0, NULL, NULL, 0);
    put_header(heads, 1, NULL, NULL, 0);
    put_header(heads, 2, NULL, NULL, 0);
    put_header(heads, 3, NULL, NULL, 0);
}

// The set of a trial, in slices whose bins are 0.
// Form kept: the slices stand apart, as the library's calls take them; a struct of them would be taken apart again at each call.
pub fn make(
    bins: &mut [u32; BINS],
    heads: &mut [u32; HEADS],
    names: &mut [u64; NAMES],
    cells: &mut [u32; CELLS],
    t: Trial,
) {
    let mut head = [0u32; 3];
    let mut sizes = [0u32; 16];
    let mut lines = [0u64; 97];
    let _ = fresh(names, cells, &mut head, &mut sizes, &mut lines);
    if t.tree {
        put_tree(names, cells, &mut head, &mut sizes, &mut lines, t);
    } else {
        put_list(names, cells, t);
    }
    blank_heads(heads);
    put_others(bins, heads, names, cells, t);
    put_bin(bins, heads, &head, t);
}
