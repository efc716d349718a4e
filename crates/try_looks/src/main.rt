// Searches trees for every pair and for every gap between two, and holds the number of slots looked at against the limit: 2 to the power
// of the looks is at most the square of one more than the pairs. Prints the limits that docs/HANDBOOK.md has.
#![tactic(auto)]

use index::find::find;
use index::fresh::fresh;
use index::insert::insert;
use slots::{MOST_CELLS, MOST_NAMES, MOST_SLOTS, put_word};
use std::io;
use std::io::Stdout;
use tree::find::counted_by;
use trials::print::{number, say};

// Pairs come in fours of one hash, so that a search also takes the detours at a null child.
fn hash_of(i: u32) -> u64 {
    (i / 4) as u64
}

// The gap below a pair has its hash and the key before its own.
fn gap_of(i: u32) -> u64 {
    (i % 4) as u64 * 2
}

fn key_of(i: u32) -> u64 {
    gap_of(i) | 1
}

// The most looks that the limit allows for n pairs: 2 to the power of them is at most the square of one more.
fn limit(n: u32) -> u32 {
    let more = n as u64 + 1;
    more.saturating_mul(more).checked_ilog2().unwrap_or(0)
}

fn looks(names: &[u64], cells: &[u32], head: &[u32], hash: u64, key: u64) -> u32 {
    let counted = counted_by(find(names, cells, head, hash, key));
    counted.looks
}

// The most looks for any of the first n pairs, the gap below it, the gap above its hash, and what is above them all.
fn deepest(names: &[u64], cells: &[u32], head: &[u32], n: u32) -> u32 {
    let mut most = looks(names, cells, head, 4294967296, 0);
    for i in 0..n {
        for key in [key_of(i), gap_of(i), 8] {
            most = most.max(looks(names, cells, head, hash_of(i), key));
        }
    }
    most
}

// Inserts pair i with an empty journal, and answers whether it was accepted.
fn take(
    names: &mut [u64],
    cells: &mut [u32],
    head: &mut [u32],
    sizes: &mut [u32],
    lines: &mut [u64],
    i: u32,
) -> bool {
    put_word(lines, 0, 0);
    insert(names, cells, head, sizes, lines, hash_of(i), key_of(i), i).is_ok()
}

// An order in which 300 pairs come.
#[derive(Clone, Copy)]
enum Order {
    Rising,
    Falling,
    Drawn,
}

impl Order {
    // The pair that comes n-th.
    fn nth(self, n: u32) -> u32 {
        match self {
            Order::Rising => n,
            Order::Falling => 299 - n % 300,
            Order::Drawn => (n % 300 * 77 + 31) % 300,
        }
    }

    fn label(self) -> &'static [u8] {
        match self {
            Order::Rising => b"rising",
            Order::Falling => b"falling",
            Order::Drawn => b"drawn",
        }
    }
}

// For each n up to 300: all searches of the tree of n pairs in this order. Prints how many trees had a search past their limit.
fn grow(
    stdout: Stdout,
    names: &mut [u64],
    cells: &mut [u32],
    head: &mut [u32],
    sizes: &mut [u32],
    lines: &mut [u64],
    order: Order,
) -> io::Result<()> {
    let _made = fresh(names, cells, head, sizes, lines);
    let mut pairs: u32 = 0;
    let mut most: u32 = 0;
    let mut past: u32 = 0;
    for n in 0..300 {
        if take(names, cells, head, sizes, lines, order.nth(n)) {
            pairs = pairs.saturating_add(1);
        }
        let seen = deepest(names, cells, head, 300);
        most = most.max(seen);
        if limit(n + 1) < seen {
            past = past.saturating_add(1);
        }
    }
    say(stdout, order.label())?;
    number(stdout, b": pairs ", pairs)?;
    number(stdout, b" deepest ", most)?;
    number(stdout, b" past the limit ", past)?;
    say(stdout, b"\n")
}

// The sizes of the handbook's table.
const LISTED: [u32; 11] = [1, 15, 16, 100, 255, 256, 512, 900, 1024, 3000, 4096];

fn row(stdout: Stdout, names: &[u64], cells: &[u32], head: &[u32], n: u32) -> io::Result<()> {
    number(stdout, b"pairs ", n)?;
    number(stdout, b" limit ", limit(n))?;
    number(stdout, b" deepest ", deepest(names, cells, head, n))?;
    say(stdout, b"\n")
}

// Pairs in rising order, which makes the deepest trees that inserts alone make: at the sizes of the table the limit, and the most looks
// of any search.
fn table(
    stdout: Stdout,
    names: &mut [u64],
    cells: &mut [u32],
    head: &mut [u32],
    sizes: &mut [u32],
    lines: &mut [u64],
) -> io::Result<()> {
    let _made = fresh(names, cells, head, sizes, lines);
    for n in 1..4097 {
        take(names, cells, head, sizes, lines, n - 1);
        if LISTED.contains(&n) {
            row(stdout, names, cells, head, n)?;
        }
    }
    Ok(())
}

fn main(rt: HostRuntime) -> io::Result<()> {
    let stdout = rt.stdout();
    let mut names = [0u64; MOST_NAMES];
    let mut cells = [0u32; MOST_CELLS];
    let mut head = [0u32; 3];
    let mut sizes = [0u32; MOST_SLOTS];
    let mut lines = [0u64; 7];
    for order in [Order::Rising, Order::Falling, Order::Drawn] {
        grow(
            stdout, &mut names, &mut cells, &mut head, &mut sizes, &mut lines, order,
        )?;
    }
    table(
        stdout, &mut names, &mut cells, &mut head, &mut sizes, &mut lines,
    )
}
