// A lookup, a step and a walk of a set, each answer on a line of its own.
use crate::say;
use sets::lookup::lookup;
use sets::walk::Cursor;
use slots::NULL;
use std::io;
use std::io::Stdout;
use trials::print;

// The lookup of (hash, key) from a table on.
pub fn look(
    stdout: Stdout,
    lengths: &[u32],
    bins: &[u32],
    heads: &[u32],
    names: &[u64],
    cells: &[u32],
    table: u32,
    hash: u32,
    key: u32,
) -> io::Result<()> {
    print::number(stdout, b"lookup from ", table)?;
    print::number(stdout, b" of ", hash)?;
    print::number(stdout, b" ", key)?;
    say::looked(
        stdout,
        lookup(
            lengths,
            bins,
            heads,
            names,
            cells,
            table,
            hash as u64,
            key as u64,
        ),
    )?;
    print::say(stdout, b"\n")
}

// At most n steps from a cursor, until one gives no entry.
fn steps(
    stdout: Stdout,
    lengths: &[u32],
    bins: &[u32],
    heads: &[u32],
    names: &[u64],
    cells: &[u32],
    from: Cursor,
    n: u32,
) -> io::Result<()> {
    let mut c = from;
    for _ in 0..n {
        let step = c.next(lengths, bins, heads, names, cells);
        c = step.cursor;
        say::given(stdout, step.answer)?;
        say::cursor(stdout, c)?;
        let Ok(Some(_)) = step.answer else {
            return Ok(());
        };
    }
    Ok(())
}

// One step from a cursor of these numbers.
pub fn step(
    stdout: Stdout,
    lengths: &[u32],
    bins: &[u32],
    heads: &[u32],
    names: &[u64],
    cells: &[u32],
    c: Cursor,
) -> io::Result<()> {
    steps(stdout, lengths, bins, heads, names, cells, c, 1)
}

// A walk from a table, of at most n steps.
pub fn walk(
    stdout: Stdout,
    lengths: &[u32],
    bins: &[u32],
    heads: &[u32],
    names: &[u64],
    cells: &[u32],
    table: u32,
    n: u32,
) -> io::Result<()> {
    print::number(stdout, b"walk from ", table)?;
    match Cursor::start(lengths, bins, heads, names, cells, table) {
        Ok(c) => {
            say::cursor(stdout, c)?;
            steps(stdout, lengths, bins, heads, names, cells, c, n)
        }
        Err(refusal) => {
            say::refused(stdout, refusal)?;
            say::cursor(stdout, Cursor::blank())
        }
    }
}

// A cursor of these numbers.
pub fn at(base: u32, depth: u32, indexes: [u32; 8], last: u32) -> Cursor {
    Cursor {
        base,
        depth,
        indexes,
        last,
    }
}

// A cursor before the first bin of table 0.
pub fn fresh() -> Cursor {
    at(0, 0, [0, 0, 0, 0, 0, 0, 0, 0], NULL)
}
