// The slices of a small set: tables of 2, 4 and 8 bins, up to four headers, and sixteen slots.
pub const TABLES: usize = 3;

pub const BINS: usize = 14;

pub const HEADS: usize = 12;

pub const NAMES: usize = 32;

pub const CELLS: usize = 112;

// A row of slots has room for all of them.
pub const ROW: usize = 16;

// The lengths of the tables.
pub fn lengths() -> [u32; TABLES] {
    [2, 4, 8]
}

// The first n words of a slice, to be written; all of them where there are no more.
// Form kept: each program has its own, since of a public one no clause that the check proves by itself says what is left of the slice.
pub fn lend(words: &mut [u32], n: usize) -> &mut [u32] {
    let most = n.min(words.len());
    &mut words[..most]
}

// Whether the bins, the headers and the cells of two sets are the same.
pub fn same_set(
    bins: &[u32; BINS],
    heads: &[u32; HEADS],
    cells: &[u32; CELLS],
    bins2: &[u32; BINS],
    heads2: &[u32; HEADS],
    cells2: &[u32; CELLS],
) -> bool {
    bins == bins2 && heads == heads2 && cells == cells2
}
