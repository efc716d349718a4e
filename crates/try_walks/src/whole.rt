// Whole sets: the rules' worked example, lists and trees in one table, and Moved bins down to table 7. A slot's key is its number.
use crate::ask::{look, walk};
use slots::{BLACK, LEFT, NEXT, NULL, PARENT, PLACE, PREV, RED, RIGHT, STATE, put};
use std::io;
use std::io::Stdout;
use trials::print;

// The place of slot i, which is its number, and its state.
// Form kept: try_damage has fill, hang and follow too; public ones would owe contracts and claims longer than they are.
pub fn fill(cells: &mut [u32], i: u32, state: u32) {
    put(cells, i, PLACE, i);
    put(cells, i, STATE, state);
}

// Slot j comes behind slot i in a chain.
fn follow(cells: &mut [u32], i: u32, j: u32) {
    put(cells, i, NEXT, j);
    put(cells, j, PREV, i);
}

// Slot c becomes the child of slot p at the field f.
fn hang(cells: &mut [u32], p: u32, f: u32, c: u32) {
    put(cells, p, f, c);
    put(cells, c, PARENT, p);
}

// Two slots, each a list of one.
pub fn two() -> [u32; 14] {
    let mut cells = [NULL; 14];
    for i in 0..2 {
        fill(&mut cells, i, BLACK);
    }
    cells
}

// Eight slots, each a list of one.
fn eight() -> [u32; 56] {
    let mut cells = [NULL; 56];
    for i in 0..8 {
        fill(&mut cells, i, BLACK);
    }
    cells
}

fn ask_worked(
    stdout: Stdout,
    lengths: &[u32],
    bins: &[u32],
    heads: &[u32],
    names: &[u64],
    cells: &[u32],
) -> io::Result<()> {
    walk(stdout, lengths, bins, heads, names, cells, 0, 20)?;
    walk(stdout, lengths, bins, heads, names, cells, 1, 20)?;
    walk(stdout, lengths, bins, heads, names, cells, 2, 20)?;
    for (table, hash, key) in [(0, 6, 5), (0, 6, 4), (1, 1, 0), (2, 1, 0)] {
        look(stdout, lengths, bins, heads, names, cells, table, hash, key)?;
    }
    Ok(())
}

// Lengths 2, 4, 8; Moved: both bins of table 0, bins 0 and 2 of table 1; a list of one in each other bin that the walk comes to. Two slots
// are in no bin.
pub fn worked(stdout: Stdout) -> io::Result<()> {
    print::say(stdout, b"worked example\n")?;
    let lengths = [2u32, 4, 8];
    let bins = [1u32, 1, 1, 2, 1, 3, 4, 0, 5, 0, 6, 0, 7, 0];
    let heads = [0u32; 0];
    let names = [1u64, 0, 3, 1, 0, 2, 2, 3, 4, 4, 6, 5, 0, 6, 0, 7];
    ask_worked(stdout, &lengths, &bins, &heads, &names, &eight())
}

// A list of three from slot 0, a tree of three whose root is slot 4 and whose first is slot 5, and a list of one.
fn mixed_cells() -> [u32; 49] {
    let mut cells = [NULL; 49];
    for (i, state) in [BLACK, BLACK, BLACK, RED, BLACK, RED, BLACK]
        .into_iter()
        .enumerate()
    {
        fill(&mut cells, i as u32, state);
    }
    put(&mut cells, 0, NEXT, 1);
    put(&mut cells, 1, NEXT, 2);
    hang(&mut cells, 4, LEFT, 3);
    hang(&mut cells, 4, RIGHT, 5);
    follow(&mut cells, 5, 3);
    follow(&mut cells, 3, 4);
    cells
}

fn ask_mixed(
    stdout: Stdout,
    lengths: &[u32],
    bins: &[u32],
    heads: &[u32],
    names: &[u64],
    cells: &[u32],
) -> io::Result<()> {
    walk(stdout, lengths, bins, heads, names, cells, 0, 20)?;
    for (table, hash, key) in [
        (0, 8, 2),
        (0, 8, 3),
        (0, 9, 5),
        (0, 9, 4),
        (0, 2, 0),
        (0, 3, 6),
    ] {
        look(stdout, lengths, bins, heads, names, cells, table, hash, key)?;
    }
    Ok(())
}

// One table of four bins: a list of three, a tree of three, nothing, and a list of one.
pub fn mixed(stdout: Stdout) -> io::Result<()> {
    print::say(stdout, b"lists and a tree\n")?;
    let lengths = [4u32];
    let bins = [2u32, 4098, 0, 8];
    let heads = [4u32, 5, 3];
    let names = [0u64, 0, 4, 1, 8, 2, 1, 3, 5, 4, 9, 5, 3, 6];
    ask_mixed(stdout, &lengths, &bins, &heads, &names, &mixed_cells())
}

// Table k begins at its length less one. Its bin 0 is Moved, down to table 6; its other bin that the walk comes to has slot k.
fn deep_bins() -> [u32; 255] {
    let mut bins = [0u32; 255];
    bins[0] = 1;
    bins[1] = 1;
    bins[2] = 3;
    bins[3] = 1;
    bins[5] = 4;
    bins[7] = 1;
    bins[11] = 5;
    bins[15] = 1;
    bins[23] = 6;
    bins[31] = 1;
    bins[47] = 7;
    bins[63] = 1;
    bins[95] = 8;
    bins[127] = 2;
    bins[191] = 9;
    bins
}

fn ask_deep(
    stdout: Stdout,
    lengths: &[u32],
    bins: &[u32],
    heads: &[u32],
    names: &[u64],
    cells: &[u32],
) -> io::Result<()> {
    walk(stdout, lengths, bins, heads, names, cells, 0, 20)?;
    walk(stdout, lengths, bins, heads, names, cells, 6, 20)?;
    for (table, hash, key) in [
        (0, 0, 0),
        (0, 64, 7),
        (0, 32, 6),
        (7, 64, 7),
        (0, 128, 0),
        (0, 64, 6),
    ] {
        look(stdout, lengths, bins, heads, names, cells, table, hash, key)?;
    }
    Ok(())
}

pub fn deep(stdout: Stdout) -> io::Result<()> {
    print::say(stdout, b"moved down to table 7\n")?;
    let lengths = [1u32, 2, 4, 8, 16, 32, 64, 128];
    let heads = [0u32; 0];
    let names = [0u64, 0, 1, 1, 2, 2, 4, 3, 8, 4, 16, 5, 32, 6, 64, 7];
    ask_deep(stdout, &lengths, &deep_bins(), &heads, &names, &eight())
}
