// Acceptance, and lookups from table 0.
use crate::words::{BINS, CELLS, HEADS, NAMES, lengths};
use sets::accept::accept;
use sets::lookup::lookup;
use slots::answer::{Answer, Answers};
use slots::{HASH, KEY, name};
use trials::part::first;

// Whether the set is accepted.
pub fn is_accepted(
    bins: &[u32; BINS],
    heads: &[u32; HEADS],
    names: &[u64; NAMES],
    cells: &[u32; CELLS],
    headers: u32,
) -> bool {
    let tables = lengths();
    let some = first(heads, 3 * headers as usize);
    accept(&tables, bins, some, names, cells).unwrap_or(false)
}

// What a lookup from table 0 answers.
fn found(
    bins: &[u32; BINS],
    heads: &[u32; HEADS],
    names: &[u64; NAMES],
    cells: &[u32; CELLS],
    headers: u32,
    hash: u64,
    key: u64,
) -> Answer {
    let tables = lengths();
    let some = first(heads, 3 * headers as usize);
    match lookup(&tables, bins, some, names, cells, 0, hash, key) {
        Ok(found) => found.counted().answer,
        Err(no_table) => no_table.answer(),
    }
}

// Lookups from table 0 give each of the first so many slots, and nothing for a pair that is in none.
pub fn found_all(
    bins: &[u32; BINS],
    heads: &[u32; HEADS],
    names: &[u64; NAMES],
    cells: &[u32; CELLS],
    headers: u32,
    many: u32,
) -> bool {
    for x in 0..many {
        let hash = name(names, x, HASH);
        let there = found(
            bins,
            heads,
            names,
            cells,
            headers,
            hash,
            name(names, x, KEY),
        );
        let none = found(bins, heads, names, cells, headers, hash, 99);
        if there.value != Some(x) || none.number != 0 || none.value.is_some() {
            return false;
        }
    }
    true
}
