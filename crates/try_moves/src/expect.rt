// What a move is to leave, written word by word from the rules: a half as a row of slots.
ghost use Rattle.std.specs.Prelude.{◌≤◌};

use crate::make::{Trial, bin_of, length_of, put_header, word_of};
use crate::order::{first_of, half};
use crate::words::{BINS, CELLS, HEADS, NAMES, ROW};
use index::fresh::fresh;
use index::insert::insert;
use slots::{
    BLACK, HASH, KEY, LEFT, NEXT, NULL, PARENT, PREV, RIGHT, ROOT, STATE, get, name, put, put_word,
    word,
};

// The headers that a half of so many wants.
fn wants(many: u32) -> u32
    ensures { result ≤ 1 }
{
    if many <= 6 { 0 } else { 1 }
}

// Whether the headers do: all are free but the first, which another bin names.
pub fn suffice(t: Trial) -> bool {
    wants(t.low) + wants(t.high) < t.headers
}

// The p-th slot of a row; null behind the last, and for null.
fn at(row: &[u32; ROW], p: u32) -> u32 {
    word(row, p as usize, NULL)
}

// A list's slot: black, with no link but its next.
fn put_plain(cells: &mut [u32; CELLS], x: u32, next: u32) {
    put(cells, x, STATE, BLACK);
    put(cells, x, PARENT, NULL);
    put(cells, x, LEFT, NULL);
    put(cells, x, RIGHT, NULL);
    put(cells, x, PREV, NULL);
    put(cells, x, NEXT, next);
}

fn put_list(cells: &mut [u32; CELLS], row: &[u32; ROW], many: u32) {
    for p in 0..many {
        put_plain(cells, at(row, p), at(row, p + 1));
    }
}

// The slots of a row inserted into a live tree in their order.
fn insert_row(
    names2: &mut [u64; NAMES],
    cells2: &mut [u32; CELLS],
    head2: &mut [u32; 3],
    sizes: &mut [u32; 16],
    lines: &mut [u64; 97],
    row: &[u32; ROW],
    many: u32,
    names: &[u64; NAMES],
) {
    for p in 0..many {
        let x = at(row, p);
        let hash = name(names, x, HASH);
        let key = name(names, x, KEY);
        let _ = insert(names2, cells2, head2, sizes, lines, hash, key, 0);
    }
}

// A live tree of them, in which the p-th has slot p. Its root is answered.
fn grow(row: &[u32; ROW], many: u32, names: &[u64; NAMES], cells2: &mut [u32; CELLS]) -> u32 {
    let mut names2 = [0u64; NAMES];
    let mut head2 = [0u32; 3];
    let mut sizes = [0u32; 16];
    let mut lines = [0u64; 97];
    let _ = fresh(&mut names2, cells2, &mut head2, &mut sizes, &mut lines);
    insert_row(
        &mut names2,
        cells2,
        &mut head2,
        &mut sizes,
        &mut lines,
        row,
        many,
        names,
    );
    head2[ROOT]
}

// A tree's slot: colour and tree links of slot p of the live tree, its neighbours of the row as prev and next.
fn put_knot(
    cells: &mut [u32; CELLS],
    row: &[u32; ROW],
    p: u32,
    before: u32,
    cells2: &[u32; CELLS],
) {
    let x = at(row, p);
    put(cells, x, STATE, get(cells2, p, STATE));
    put(cells, x, PARENT, at(row, get(cells2, p, PARENT)));
    put(cells, x, LEFT, at(row, get(cells2, p, LEFT)));
    put(cells, x, RIGHT, at(row, get(cells2, p, RIGHT)));
    put(cells, x, PREV, before);
    put(cells, x, NEXT, at(row, std::num::wrapping_add_u32(p, 1)));
}

fn put_knots(cells: &mut [u32; CELLS], row: &[u32; ROW], many: u32, cells2: &[u32; CELLS]) {
    let mut before = NULL;
    for p in 0..many {
        put_knot(cells, row, p, before, cells2);
        before = at(row, p);
    }
}

// A half of seven or more under header h: the tree that inserting in listing order builds.
fn put_tree(
    heads: &mut [u32; HEADS],
    names: &[u64; NAMES],
    cells: &mut [u32; CELLS],
    row: &[u32; ROW],
    many: u32,
    h: u32,
) {
    let mut cells2 = [0u32; CELLS];
    let root = grow(row, many, names, &mut cells2);
    put_knots(cells, row, many, &cells2);
    put_header(heads, h, at(row, root), at(row, 0), many);
}

// The word of a half of so many slots, under header h if it is a tree.
fn word_for(row: &[u32; ROW], many: u32, h: u32) -> u32 {
    if many == 0 {
        return 0;
    }
    if many <= 6 {
        return std::num::wrapping_add_u32(at(row, 0), 2);
    }
    std::num::wrapping_add_u32(h, 4098)
}

// A half in its form.
fn put_half(
    heads: &mut [u32; HEADS],
    names: &[u64; NAMES],
    cells: &mut [u32; CELLS],
    row: &[u32; ROW],
    many: u32,
    h: u32,
) {
    if many <= 6 {
        put_list(cells, row, many);
    } else {
        put_tree(heads, names, cells, row, many, h);
    }
}

// The bin's own header is given back.
fn give_back(heads: &mut [u32; HEADS], t: Trial) {
    if t.tree {
        put_header(
            heads,
            std::num::wrapping_sub_u32(t.headers, 1),
            NULL,
            NULL,
            0,
        );
    }
}

// Where the two bins below stand.
fn low_word(t: Trial) -> usize {
    if t.table == 0 { 3 } else { 9 }
}

fn high_word(t: Trial) -> usize {
    if t.table == 0 { 5 } else { 13 }
}

// The bin of a set moved: header 1 is the lowest that is free, and the low half has it first.
pub fn expect(
    bins: &mut [u32; BINS],
    heads: &mut [u32; HEADS],
    names: &[u64; NAMES],
    cells: &mut [u32; CELLS],
    t: Trial,
) {
    let mut low = [NULL; ROW];
    let mut high = [NULL; ROW];
    let first = first_of(word(bins, word_of(t), 0), heads);
    let length = length_of(t);
    let bin = bin_of(t);
    let lows = half(&mut low, names, cells, first, 2 * length, bin);
    let highs = half(&mut high, names, cells, first, 2 * length, bin + length);
    let h = 1 + wants(lows);
    give_back(heads, t);
    put_half(heads, names, cells, &low, lows, 1);
    put_half(heads, names, cells, &high, highs, h);
    put_word(bins, word_of(t), 1);
    put_word(bins, low_word(t), word_for(&low, lows, 1));
    put_word(bins, high_word(t), word_for(&high, highs, h));
}
