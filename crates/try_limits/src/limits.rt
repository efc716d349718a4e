// Asks find at the limits of what it refuses, and prints each answer.
use index::find::find;
use slots::answer::Unfit;
use slots::{LEFT, NULL, RIGHT, put};
use std::io;
use std::io::Stdout;
use tree::find::{Found, counted_by};
use trials::part::first;
use trials::print::{answer_or, say};

fn print(stdout: Stdout, label: &[u8], found: Result<Found<u32>, Unfit>) -> io::Result<()> {
    let answer = counted_by(found).answer;
    say(stdout, label)?;
    answer_or(stdout, b": ", b"at ", b"none", answer)?;
    say(stdout, b"\n")
}

// A tree of n slots in which each name is (0, 0), asked for (0, key) from root.
fn ask(
    stdout: Stdout,
    label: &[u8],
    names: &[u64],
    cells: &[u32],
    n: u32,
    root: u32,
    key: u64,
) -> io::Result<()> {
    let head = [root, root, 0];
    let slots = n as usize;
    let found = find(
        first(names, 2 * slots),
        first(cells, 7 * slots),
        &head,
        0,
        key,
    );
    print(stdout, label, found)
}

// The smallest capacity and the largest, and one past each.
fn capacities(stdout: Stdout, names: &[u64], cells: &[u32]) -> io::Result<()> {
    ask(stdout, b"capacity 0", names, cells, 0, NULL, 0)?;
    ask(stdout, b"capacity 1", names, cells, 1, 0, 0)?;
    ask(stdout, b"capacity 4096", names, cells, 4096, 4095, 0)?;
    ask(stdout, b"capacity 4097", names, cells, 4097, 0, 0)
}

// Four slots, with so many words of each slice.
fn cut(
    stdout: Stdout,
    label: &[u8],
    names: &[u64],
    cells: &[u32],
    n: usize,
    c: usize,
    h: usize,
) -> io::Result<()> {
    let head = [0u32, 0, 0, 0];
    let found = find(first(names, n), first(cells, c), first(&head, h), 0, 0);
    print(stdout, label, found)
}

fn lengths(stdout: Stdout, names: &[u64], cells: &[u32]) -> io::Result<()> {
    cut(stdout, b"lengths right", names, cells, 8, 28, 3)?;
    cut(stdout, b"names one short", names, cells, 7, 28, 3)?;
    cut(stdout, b"names one long", names, cells, 9, 28, 3)?;
    cut(stdout, b"cells one short", names, cells, 8, 27, 3)?;
    cut(stdout, b"cells one long", names, cells, 8, 29, 3)?;
    cut(stdout, b"header one short", names, cells, 8, 28, 2)?;
    cut(stdout, b"header one long", names, cells, 8, 28, 4)
}

fn roots(stdout: Stdout, names: &[u64], cells: &[u32]) -> io::Result<()> {
    ask(stdout, b"root null", names, cells, 4, NULL, 0)?;
    ask(stdout, b"root n - 1", names, cells, 4, 3, 0)?;
    ask(stdout, b"root n", names, cells, 4, 4, 0)?;
    ask(stdout, b"root 4294967294", names, cells, 4, 4294967294, 0)
}

// Two slots, of which each is the other's right child where there is a cycle.
fn cycles(stdout: Stdout, names: &[u64]) -> io::Result<()> {
    let mut cells = [NULL; 14];
    put(&mut cells, 0, RIGHT, 1);
    ask(stdout, b"two slots", names, &cells, 2, 0, 1)?;
    put(&mut cells, 1, RIGHT, 0);
    ask(stdout, b"two-slot cycle", names, &cells, 2, 0, 1)
}

// One slot, whose left child is itself, and then no slot.
fn children(stdout: Stdout, names: &[u64]) -> io::Result<()> {
    let mut cells = [NULL; 7];
    put(&mut cells, 0, LEFT, 0);
    ask(stdout, b"its own left child", names, &cells, 1, 0, 1)?;
    put(&mut cells, 0, LEFT, 1);
    ask(stdout, b"left child n", names, &cells, 1, 0, 1)
}

pub fn run(stdout: Stdout) -> io::Result<()> {
    let names = [0u64; 8196];
    let cells = [NULL; 28686];
    capacities(stdout, &names, &cells)?;
    lengths(stdout, &names, &cells)?;
    roots(stdout, &names, &cells)?;
    cycles(stdout, &names)?;
    children(stdout, &names)
}
