// Cursors that next refuses with 11, and tables that lookup and start refuse with 1 and 10.
use crate::ask::{at, fresh, look, step, walk};
use crate::whole::two;
use sets::walk::Cursor;
use slots::NULL;
use std::io;
use std::io::Stdout;
use trials::print;

// A step from a cursor on tables of 2, 4 and 8 bins, where bin 3 of table 1 and bin 5 of table 2 hold a list of one.
fn from(stdout: Stdout, label: &[u8], c: Cursor) -> io::Result<()> {
    let lengths = [2u32, 4, 8];
    let bins = [1u32, 1, 0, 1, 0, 2, 0, 0, 0, 0, 0, 3, 0, 0];
    let heads = [0u32; 0];
    let names = [3u64, 0, 5, 1];
    print::say(stdout, label)?;
    step(stdout, &lengths, &bins, &heads, &names, &two(), c)
}

// The base index and the end.
fn ends(stdout: Stdout) -> io::Result<()> {
    from(stdout, b"fresh: ", fresh())?;
    from(stdout, b"end: ", at(0, 0, [2, 0, 0, 0, 0, 0, 0, 0], NULL))?;
    from(
        stdout,
        b"end with a slot: ",
        at(0, 0, [2, 0, 0, 0, 0, 0, 0, 0], 1),
    )?;
    from(
        stdout,
        b"past the end: ",
        at(0, 0, [3, 0, 0, 0, 0, 0, 0, 0], NULL),
    )
}

// The base table and the depth.
fn depths(stdout: Stdout) -> io::Result<()> {
    from(
        stdout,
        b"last base: ",
        at(2, 0, [0, 0, 0, 0, 0, 0, 0, 0], NULL),
    )?;
    from(
        stdout,
        b"no such base: ",
        at(3, 0, [0, 0, 0, 0, 0, 0, 0, 0], NULL),
    )?;
    from(
        stdout,
        b"widest base: ",
        at(NULL, NULL, [0, 0, 0, 0, 0, 0, 0, 0], NULL),
    )
}

// The depth below a base.
fn below(stdout: Stdout) -> io::Result<()> {
    from(
        stdout,
        b"last depth: ",
        at(0, 2, [1, 1, 5, 0, 0, 0, 0, 0], NULL),
    )?;
    from(
        stdout,
        b"too deep: ",
        at(0, 3, [1, 1, 5, 5, 0, 0, 0, 0], NULL),
    )?;
    from(
        stdout,
        b"base too deep: ",
        at(1, 2, [1, 5, 5, 0, 0, 0, 0, 0], NULL),
    )?;
    from(
        stdout,
        b"end below: ",
        at(0, 1, [2, 2, 0, 0, 0, 0, 0, 0], NULL),
    )
}

// The index at a level, and its congruence to the one above.
fn levels(stdout: Stdout) -> io::Result<()> {
    from(
        stdout,
        b"level out of range: ",
        at(0, 1, [1, 5, 0, 0, 0, 0, 0, 0], NULL),
    )?;
    from(
        stdout,
        b"level at the end: ",
        at(0, 1, [0, 4, 0, 0, 0, 0, 0, 0], NULL),
    )?;
    from(
        stdout,
        b"not congruent: ",
        at(0, 1, [0, 1, 0, 0, 0, 0, 0, 0], NULL),
    )?;
    from(
        stdout,
        b"not congruent below: ",
        at(0, 2, [1, 3, 5, 0, 0, 0, 0, 0], NULL),
    )
}

// What stands past the depth, and the slot last given.
fn rest(stdout: Stdout) -> io::Result<()> {
    from(
        stdout,
        b"past the depth: ",
        at(0, 1, [1, 1, 77, 77, 77, 77, 77, 77], NULL),
    )?;
    from(
        stdout,
        b"past the depth, refused: ",
        at(0, 1, [1, 2, 77, 77, 77, 77, 77, 77], NULL),
    )?;
    from(
        stdout,
        b"last slot: ",
        at(0, 0, [0, 0, 0, 0, 0, 0, 0, 0], 1),
    )?;
    from(
        stdout,
        b"no such slot: ",
        at(0, 0, [0, 0, 0, 0, 0, 0, 0, 0], 2),
    )
}

// Each number of a cursor at its last fine value, and one past it.
pub fn cursors(stdout: Stdout) -> io::Result<()> {
    print::say(stdout, b"cursors\n")?;
    ends(stdout)?;
    depths(stdout)?;
    below(stdout)?;
    levels(stdout)?;
    rest(stdout)
}

fn ask_tables(
    stdout: Stdout,
    lengths: &[u32],
    bins: &[u32],
    table: u32,
    cells: &[u32],
) -> io::Result<()> {
    let heads = [0u32; 0];
    let names = [0u64; 0];
    look(stdout, lengths, bins, &heads, &names, cells, table, 0, 0)?;
    walk(stdout, lengths, bins, &heads, &names, cells, table, 3)?;
    step(stdout, lengths, bins, &heads, &names, cells, fresh())
}

// Tables that are not there, and lengths that break their rule.
pub fn tables(stdout: Stdout) -> io::Result<()> {
    print::say(stdout, b"tables\n")?;
    let bins = [0u32, 0, 0];
    let none = [0u32; 0];
    ask_tables(stdout, &[1u32, 2], &bins, 1, &none)?;
    ask_tables(stdout, &[1u32, 2], &bins, 2, &none)?;
    ask_tables(stdout, &[3u32], &bins, 0, &none)?;
    ask_tables(stdout, &[0u32, 0], &none, 0, &none)?;
    ask_tables(stdout, &[2u32, 1], &bins, 0, &none)?;
    ask_tables(stdout, &[1u32, 2], &bins, 0, &[0u32; 7])?;
    ask_tables(stdout, &none, &none, 0, &none)
}
