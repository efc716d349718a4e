// Sets that lookup and next refuse with 9, and those where they differ.
use crate::ask::{look, walk};
use crate::whole::{fill, two};
use slots::{BLACK, NEXT, NULL, put};
use std::io;
use std::io::Stdout;
use trials::print;

// A lookup of a key with hash 0 and a walk of a set of one table, whose one bin has this word.
fn word(
    stdout: Stdout,
    w: u32,
    heads: &[u32],
    names: &[u64],
    cells: &[u32],
    key: u32,
) -> io::Result<()> {
    let lengths = [1u32];
    let bins = [w];
    print::number(stdout, b"word ", w)?;
    print::say(stdout, b"\n")?;
    look(stdout, &lengths, &bins, heads, names, cells, 0, 0, key)?;
    walk(stdout, &lengths, &bins, heads, names, cells, 0, 3)
}

fn small_words(stdout: Stdout, heads: &[u32], names: &[u64], cells: &[u32]) -> io::Result<()> {
    for w in [0, 1, 2, 3, 4, 4097, 4098, 4099, 8193, 8194, NULL] {
        word(stdout, w, heads, names, cells, 1)?;
    }
    Ok(())
}

// A bin's word at each edge of what two slots and one header, whose tree is slot 1, allow. Moved is in the last table.
pub fn words(stdout: Stdout) -> io::Result<()> {
    print::say(stdout, b"two slots and one header\n")?;
    let heads = [1u32, 1, 1];
    let names = [0u64, 0, 0, 1];
    small_words(stdout, &heads, &names, &two())
}

// The last of 4,096 slots is used.
fn wide_cells() -> [u32; 28672] {
    let mut cells = [NULL; 28672];
    fill(&mut cells, 4095, BLACK);
    cells
}

// The first and the last of 4,096 headers have the last slot as root and first.
fn wide_heads() -> [u32; 12288] {
    let mut heads = [NULL; 12288];
    for word in [0, 1, 12285, 12286] {
        heads[word] = 4095;
    }
    heads
}

fn wide_words(stdout: Stdout, heads: &[u32], names: &[u64], cells: &[u32]) -> io::Result<()> {
    for w in [4097, 4098, 8193, 8194] {
        word(stdout, w, heads, names, cells, 0)?;
    }
    Ok(())
}

// The words that name the last slot, the first header, the last header, and none.
pub fn widest(stdout: Stdout) -> io::Result<()> {
    print::say(stdout, b"4096 slots and 4096 headers\n")?;
    let names = [0u64; 8192];
    wide_words(stdout, &wide_heads(), &names, &wide_cells())
}

// One slot.
fn one() -> [u32; 7] {
    let mut cells = [NULL; 7];
    fill(&mut cells, 0, BLACK);
    cells
}

// A tree over one slot whose header has these words.
fn header(stdout: Stdout, root: u32, first: u32) -> io::Result<()> {
    let heads = [root, first, 1];
    let names = [0u64, 0];
    print::number(stdout, b"root ", root)?;
    print::number(stdout, b" first ", first)?;
    print::say(stdout, b"\n")?;
    word(stdout, 4098, &heads, &names, &one(), 0)
}

// Lookup reads a header's root alone, the walk its first alone: a null root, a null first, and each out of range.
pub fn headers(stdout: Stdout) -> io::Result<()> {
    print::say(stdout, b"headers\n")?;
    for (root, first) in [(0, 0), (0, NULL), (NULL, 0), (1, 0), (0, 1)] {
        header(stdout, root, first)?;
    }
    Ok(())
}

// A list of two, from slot 0, the last of which has this next link.
fn linked_cells(next: u32) -> [u32; 14] {
    let mut cells = two();
    put(&mut cells, 0, NEXT, 1);
    put(&mut cells, 1, NEXT, next);
    cells
}

fn ask_linked(
    stdout: Stdout,
    lengths: &[u32],
    bins: &[u32],
    heads: &[u32],
    names: &[u64],
    cells: &[u32],
) -> io::Result<()> {
    look(stdout, lengths, bins, heads, names, cells, 0, 0, 1)?;
    look(stdout, lengths, bins, heads, names, cells, 0, 0, 2)?;
    walk(stdout, lengths, bins, heads, names, cells, 0, 5)
}

fn linked(stdout: Stdout, next: u32) -> io::Result<()> {
    let lengths = [1u32];
    let bins = [2u32];
    let heads = [0u32; 0];
    let names = [0u64, 0, 0, 1];
    print::number(stdout, b"next ", next)?;
    print::say(stdout, b"\n")?;
    ask_linked(stdout, &lengths, &bins, &heads, &names, &linked_cells(next))
}

// A list that ends, one that goes round, and one whose link names no slot. A step reads one slot, so a ring is walked for ever.
pub fn links(stdout: Stdout) -> io::Result<()> {
    print::say(stdout, b"lists\n")?;
    for next in [NULL, 0, 1, 2] {
        linked(stdout, next)?;
    }
    Ok(())
}
