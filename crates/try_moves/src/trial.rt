// The moves: halves of 0, 1, 6, 7 and all entries, from lists and from trees, with as many headers as will do and fewer.
ghost use Rattle.std.specs.Prelude.{◌≤◌};

use crate::counts::{Counts, Kind, tried};
use crate::expect::{expect, suffice};
use crate::judge::{found_all, is_accepted};
use crate::make::{Trial, bin_of, entries_of, make, used_of};
use crate::words::{BINS, CELLS, HEADS, NAMES, TABLES, lend, lengths, same_set};
use mover::moving::{MoveRefusal, move_bin};

// What came of a move: whether all but the words is right, and what was answered.
#[derive(Clone, Copy)]
struct Moving {
    whole: bool,
    reply: Result<u32, MoveRefusal>,
}

// A move of a set that is lent so many words of headers.
pub fn ask_some(
    tables: &[u32; TABLES],
    bins: &mut [u32],
    heads: &mut [u32],
    names: &[u64],
    cells: &mut [u32],
    words: usize,
    table: u32,
    bin: u32,
) -> Result<u32, MoveRefusal> {
    let some = lend(heads, words);
    move_bin(tables, bins, some, names, cells, table, bin)
}

// A move of a set that is lent so many headers.
pub fn ask(
    bins: &mut [u32; BINS],
    heads: &mut [u32; HEADS],
    names: &[u64; NAMES],
    cells: &mut [u32; CELLS],
    headers: u32,
    table: u32,
    bin: u32,
) -> Result<u32, MoveRefusal> {
    let tables = lengths();
    let words = 3 * headers as usize;
    ask_some(&tables, bins, heads, names, cells, words, table, bin)
}

// The set of a trial with what a move is to leave in it: where the headers do not do, all of it as it was.
fn make_after(
    bins: &mut [u32; BINS],
    heads: &mut [u32; HEADS],
    names: &mut [u64; NAMES],
    cells: &mut [u32; CELLS],
    t: Trial,
) {
    make(bins, heads, names, cells, t);
    if suffice(t) {
        expect(bins, heads, names, cells, t);
    }
}

// What is to be answered.
fn answered(t: Trial, reply: Result<u32, MoveRefusal>) -> bool {
    if suffice(t) {
        return reply == Ok(entries_of(t));
    }
    reply == Err(MoveRefusal::Full)
}

// A set that is accepted, in which lookups from table 0 find every entry.
fn is_whole(
    bins: &[u32; BINS],
    heads: &[u32; HEADS],
    names: &[u64; NAMES],
    cells: &[u32; CELLS],
    t: Trial,
) -> bool {
    let yes = is_accepted(bins, heads, names, cells, t.headers);
    let all = found_all(bins, heads, names, cells, t.headers, used_of(t));
    yes && all
}

// A set whose bin is moved, and whether it was whole before and is whole after.
fn move_made(
    bins: &mut [u32; BINS],
    heads: &mut [u32; HEADS],
    names: &mut [u64; NAMES],
    cells: &mut [u32; CELLS],
    t: Trial,
) -> Moving {
    make(bins, heads, names, cells, t);
    let before = is_whole(bins, heads, names, cells, t);
    let reply = ask(bins, heads, names, cells, t.headers, t.table, bin_of(t));
    let after = is_whole(bins, heads, names, cells, t);
    let right = answered(t, reply);
    Moving {
        whole: before && after && right,
        reply,
    }
}

// One move, and the set with what it is to leave.
fn try_one(counts: &mut Counts, kind: Kind, t: Trial) {
    let mut bins = [0u32; BINS];
    let mut heads = [0u32; HEADS];
    let mut names = [0u64; NAMES];
    let mut cells = [0u32; CELLS];
    let mut bins2 = [0u32; BINS];
    let mut heads2 = [0u32; HEADS];
    let mut cells2 = [0u32; CELLS];
    let made = move_made(&mut bins, &mut heads, &mut names, &mut cells, t);
    make_after(&mut bins2, &mut heads2, &mut names, &mut cells2, t);
    let same = same_set(&bins, &heads, &cells, &bins2, &heads2, &cells2);
    tried(
        counts,
        kind,
        made.reply.is_err(),
        made.reply.unwrap_or(0),
        same && made.whole,
    );
}

// The fewest headers of a set: a tree has one of its own, behind that of the other bin.
fn fewest(tree: bool) -> u32
    ensures { result ≤ 2 }
{
    if tree { 2 } else { 1 }
}

// Each number of headers up to four.
fn try_headers(
    counts: &mut Counts,
    kind: Kind,
    table: u32,
    low: u32,
    high: u32,
    tree: bool,
    equal: bool,
) {
    for headers in fewest(tree)..5 {
        let t = Trial {
            table,
            low,
            high,
            tree,
            equal,
            headers,
        };
        try_one(counts, kind, t);
    }
}

// The k-th number of entries that a half has.
pub fn many_of(k: u32) -> u32
    ensures { result ≤ 14 }
{
    match k {
        0 => 0,
        1 => 1,
        2 => 6,
        3 => 7,
        _ => 14,
    }
}

// Each size of the two halves that a set of fourteen entries can have; a tree has one entry at least.
fn try_halves(counts: &mut Counts, kind: Kind, table: u32, tree: bool, equal: bool) {
    for k in 0..25 {
        let low = many_of(k / 5);
        let high = many_of(k % 5);
        if low + high <= 14 {
            if !tree || 1 <= low + high {
                try_headers(counts, kind, table, low, high, tree, equal);
            }
        }
    }
}

pub fn try_moves(counts: &mut Counts) {
    try_halves(counts, Kind::List, 0, false, false);
    try_halves(counts, Kind::List, 1, false, false);
    try_halves(counts, Kind::ListOfOneHash, 0, false, true);
    try_halves(counts, Kind::ListOfOneHash, 1, false, true);
    try_halves(counts, Kind::Tree, 0, true, false);
    try_halves(counts, Kind::Tree, 1, true, false);
    try_halves(counts, Kind::TreeOfOneHash, 0, true, true);
    try_halves(counts, Kind::TreeOfOneHash, 1, true, true);
}
