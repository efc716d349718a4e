// What is refused: nothing may be written.
use crate::counts::{Counts, Kind, tried};
use crate::judge::is_accepted;
use crate::make::{Trial, make};
use crate::trial::{ask, ask_some};
use crate::words::{BINS, CELLS, HEADS, NAMES, TABLES, same_set};
use mover::moving::MoveRefusal;
use slots::put_word;
use trials::part::first;

// Nine entries of a bin of table 1, seven of them of the low half, and four headers.
fn sample(tree: bool) -> Trial {
    Trial {
        table: 1,
        low: 7,
        high: 2,
        tree,
        equal: false,
        headers: 4,
    }
}

// A damaged set is 2 for a bin that may be moved, and for one that may not; with a table that is not there it is 10.
fn refused_thrice(
    bins: &mut [u32; BINS],
    heads: &mut [u32; HEADS],
    names: &[u64; NAMES],
    cells: &mut [u32; CELLS],
) -> bool {
    let may = ask(bins, heads, names, cells, 4, 1, 3);
    let gone = ask(bins, heads, names, cells, 4, 0, 1);
    let none = ask(bins, heads, names, cells, 4, 3, 0);
    may == Err(MoveRefusal::Damaged)
        && gone == Err(MoveRefusal::Damaged)
        && none == Err(MoveRefusal::Unknown)
}

// A set is damaged where acceptance says no.
fn ask_damaged(
    counts: &mut Counts,
    bins: &mut [u32; BINS],
    heads: &mut [u32; HEADS],
    names: &[u64; NAMES],
    cells: &mut [u32; CELLS],
) {
    if is_accepted(bins, heads, names, cells, 4) {
        return;
    }
    let bins0 = *bins;
    let heads0 = *heads;
    let cells0 = *cells;
    let right = refused_thrice(bins, heads, names, cells);
    let same = same_set(bins, heads, cells, &bins0, &heads0, &cells0);
    tried(counts, Kind::Word, true, 0, same && right);
}

// Word k of the bins, the headers and the cells, in that order, is another.
fn damage(
    bins: &mut [u32; BINS],
    heads: &mut [u32; HEADS],
    cells: &mut [u32; CELLS],
    k: usize,
    value: u32,
) {
    if k < BINS {
        put_word(bins, k, value);
        return;
    }
    let h = k - BINS;
    if h < HEADS {
        put_word(heads, h, value);
        return;
    }
    put_word(cells, h - HEADS, value);
}

// The sample with a word damaged.
fn try_damaged(counts: &mut Counts, tree: bool, k: usize, value: u32) {
    let mut bins = [0u32; BINS];
    let mut heads = [0u32; HEADS];
    let mut names = [0u64; NAMES];
    let mut cells = [0u32; CELLS];
    make(&mut bins, &mut heads, &mut names, &mut cells, sample(tree));
    damage(&mut bins, &mut heads, &mut cells, k, value);
    ask_damaged(counts, &mut bins, &mut heads, &names, &mut cells);
}

fn try_words(counts: &mut Counts, tree: bool) {
    for k in 0..BINS + HEADS + CELLS {
        try_damaged(counts, tree, k, 0);
        try_damaged(counts, tree, k, 1);
        try_damaged(counts, tree, k, 3);
        try_damaged(counts, tree, k, 4098);
    }
}

// The slices that a move is lent: the lengths of the tables, and how many words of headers and of names.
#[derive(Clone, Copy)]
struct Lent {
    tables: [u32; TABLES],
    heads: usize,
    names: usize,
}

// Those of a set.
const FITTING: Lent = Lent {
    tables: [2, 4, 8],
    heads: HEADS,
    names: NAMES,
};

fn with_tables(tables: [u32; TABLES]) -> Lent {
    Lent { tables, ..FITTING }
}

fn with_heads(heads: usize) -> Lent {
    Lent { heads, ..FITTING }
}

fn with_names(names: usize) -> Lent {
    Lent { names, ..FITTING }
}

// Those that do not fit: lengths of tables that break their rule, or that the bins are not the sum of; words of headers and of names that
// are no headers and no slots, or fewer slots than the cells have.
fn unfitting() -> [Lent; 8] {
    [
        with_tables([2, 4, 9]),
        with_tables([1, 2, 4]),
        with_tables([4, 8, 16]),
        with_tables([0, 0, 14]),
        with_heads(11),
        with_heads(10),
        with_names(31),
        with_names(30),
    ]
}

// A move of the sample that is to be refused so, of slices that fit or do not.
fn try_number(
    counts: &mut Counts,
    kind: Kind,
    tree: bool,
    lent: Lent,
    table: u32,
    bin: u32,
    refusal: MoveRefusal,
) {
    let mut bins = [0u32; BINS];
    let mut heads = [0u32; HEADS];
    let mut names = [0u64; NAMES];
    let mut cells = [0u32; CELLS];
    make(&mut bins, &mut heads, &mut names, &mut cells, sample(tree));
    let bins0 = bins;
    let heads0 = heads;
    let cells0 = cells;
    let told = ask_some(
        &lent.tables,
        &mut bins,
        &mut heads,
        first(&names, lent.names),
        &mut cells,
        lent.heads,
        table,
        bin,
    );
    let same = same_set(&bins, &heads, &cells, &bins0, &heads0, &cells0);
    tried(counts, kind, told.is_err(), 0, same && told == Err(refusal));
}

// The sixteens: no next table, no such bin, Moved already, and a parent that is not Moved.
fn try_sixteen(counts: &mut Counts, tree: bool) {
    try_number(
        counts,
        Kind::Last,
        tree,
        FITTING,
        2,
        0,
        MoveRefusal::CannotMove,
    );
    try_number(
        counts,
        Kind::Last,
        tree,
        FITTING,
        2,
        8,
        MoveRefusal::CannotMove,
    );
    try_number(
        counts,
        Kind::Bin,
        tree,
        FITTING,
        0,
        2,
        MoveRefusal::CannotMove,
    );
    try_number(
        counts,
        Kind::Bin,
        tree,
        FITTING,
        1,
        4,
        MoveRefusal::CannotMove,
    );
    try_number(
        counts,
        Kind::Gone,
        tree,
        FITTING,
        0,
        1,
        MoveRefusal::CannotMove,
    );
    try_number(
        counts,
        Kind::Parent,
        tree,
        FITTING,
        1,
        0,
        MoveRefusal::CannotMove,
    );
    try_number(
        counts,
        Kind::Parent,
        tree,
        FITTING,
        1,
        2,
        MoveRefusal::CannotMove,
    );
}

// Slices that do not fit are 1, also where there is no such table.
fn try_unfits(counts: &mut Counts) {
    for lent in unfitting() {
        try_number(counts, Kind::Slices, false, lent, 1, 3, MoveRefusal::Unfit);
        try_number(counts, Kind::Slices, false, lent, 3, 3, MoveRefusal::Unfit);
    }
}

pub fn try_refusals(counts: &mut Counts) {
    try_unfits(counts);
    try_number(
        counts,
        Kind::Table,
        false,
        FITTING,
        3,
        0,
        MoveRefusal::Unknown,
    );
    try_number(
        counts,
        Kind::Table,
        true,
        FITTING,
        4294967295,
        0,
        MoveRefusal::Unknown,
    );
    try_words(counts, false);
    try_words(counts, true);
    try_sixteen(counts, false);
    try_sixteen(counts, true);
}
