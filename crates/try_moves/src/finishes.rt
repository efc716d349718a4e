// All bins moved, held against the moves made one after another.
use crate::counts::{Counts, Kind, tried};
use crate::make::{Trial, make};
use crate::trial::{ask, many_of};
use crate::words::{BINS, CELLS, HEADS, NAMES, lend, lengths, same_set};
use mover::finishing::{Stop, finish};
use mover::moving::MoveRefusal;

// All bins of a set that is lent so many headers.
fn finish_all(
    bins: &mut [u32; BINS],
    heads: &mut [u32; HEADS],
    names: &[u64; NAMES],
    cells: &mut [u32; CELLS],
    headers: u32,
) -> Result<u32, Stop> {
    let tables = lengths();
    let some = lend(heads, 3 * headers as usize);
    finish(&tables, bins, some, names, cells)
}

// The table and the bin of each move: two of table 0, then four of table 1.
const MOVES: [(u32, u32); 6] = [(0, 0), (0, 1), (1, 0), (1, 1), (1, 2), (1, 3)];

// The six moves one after another, up to a refusal that is not 16.
fn move_all(
    bins: &mut [u32; BINS],
    heads: &mut [u32; HEADS],
    names: &[u64; NAMES],
    cells: &mut [u32; CELLS],
    headers: u32,
) -> Result<u32, Stop> {
    let mut gone = 0;
    for &(table, bin) in MOVES.iter() {
        match ask(bins, heads, names, cells, headers, table, bin) {
            Ok(entries) => gone = std::num::wrapping_add_u32(gone, entries),
            Err(MoveRefusal::CannotMove) => {},
            Err(refusal) => {
                return Err(Stop {
                    refusal,
                    table: table as usize,
                    bin,
                    gone,
                });
            },
        }
    }
    Ok(gone)
}

// A set, and its bins moved in both ways.
fn try_one(counts: &mut Counts, t: Trial) {
    let mut bins = [0u32; BINS];
    let mut heads = [0u32; HEADS];
    let mut names = [0u64; NAMES];
    let mut cells = [0u32; CELLS];
    make(&mut bins, &mut heads, &mut names, &mut cells, t);
    let mut bins2 = bins;
    let mut heads2 = heads;
    let mut cells2 = cells;
    let told = finish_all(&mut bins, &mut heads, &names, &mut cells, t.headers);
    let made = move_all(&mut bins2, &mut heads2, &names, &mut cells2, t.headers);
    let same = same_set(&bins, &heads, &cells, &bins2, &heads2, &cells2);
    let gone = match told {
        Ok(gone) => gone,
        Err(stop) => stop.gone,
    };
    tried(
        counts,
        Kind::Finish,
        told.is_err(),
        gone,
        same && told == made,
    );
}

// Every size of the halves with one to four headers.
fn try_sizes(counts: &mut Counts, table: u32, tree: bool) {
    for k in 0..100 {
        let low = many_of(k / 4 / 5);
        let high = many_of(k / 4 % 5);
        let headers = k % 4 + 1;
        let t = Trial {
            table,
            low,
            high,
            tree,
            equal: false,
            headers,
        };
        if low + high <= 14 && (!tree || (1 <= low + high && 2 <= headers)) {
            try_one(counts, t);
        }
    }
}

pub fn try_finishes(counts: &mut Counts) {
    try_sizes(counts, 0, false);
    try_sizes(counts, 1, false);
    try_sizes(counts, 0, true);
    try_sizes(counts, 1, true);
}
