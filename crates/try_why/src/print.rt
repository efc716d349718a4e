// What is printed: a line to each kind of damage, and one to all of them.
use crate::ask::{ALL, COLUMNS};
use slots::word;
use std::io;
use std::io::Stdout;
use trials::print::{number, say};

// The labels of the lines: the words, one at a time, and then two slots at a time.
const LABELS: [&[u8]; 28] = [
    b"as it is",
    b"a name",
    b"a place",
    b"a state",
    b"a parent",
    b"a left link",
    b"a right link",
    b"a prev",
    b"a next",
    b"the root",
    b"the first",
    b"the count",
    b"a size",
    b"two parents exchanged",
    b"two left links exchanged",
    b"two right links exchanged",
    b"two prevs exchanged",
    b"two nexts exchanged",
    b"two pairs exchanged",
    b"two states exchanged",
    b"two colours changed",
    b"two sizes exchanged",
    b"two parents for one slot",
    b"the same child twice",
    b"a ring beside the tree",
    b"a ring beside the chain",
    b"a slot hung elsewhere with all below it",
    b"a slot moved in the chain",
];

// A column of a line.
fn at(counts: &[u32], line: u32, column: u32) -> u32 {
    word(counts, line as usize * COLUMNS + column as usize, 0)
}

// The rules from T3 on.
fn print_rest(stdout: Stdout, counts: &[u32], line: u32) -> io::Result<()> {
    number(stdout, b", T3 ", at(counts, line, 5))?;
    number(stdout, b", T4 ", at(counts, line, 6))?;
    number(stdout, b", T5 ", at(counts, line, 7))?;
    number(stdout, b", T6 ", at(counts, line, 8))?;
    number(stdout, b", T7 ", at(counts, line, 9))?;
    number(stdout, b", T8 ", at(counts, line, 10))?;
    number(stdout, b", differences ", at(counts, line, 11))?;
    say(stdout, b"\n")
}

// One line to a kind.
fn print(stdout: Stdout, label: &[u8], counts: &[u32], line: u32) -> io::Result<()> {
    say(stdout, label)?;
    number(stdout, b": tried ", at(counts, line, 0))?;
    number(stdout, b", sound ", at(counts, line, 1))?;
    number(stdout, b", T1 ", at(counts, line, 2))?;
    number(stdout, b", T1 by the header ", at(counts, line, 3))?;
    number(stdout, b", T2 by the header ", at(counts, line, 4))?;
    print_rest(stdout, counts, line)
}

pub fn report(stdout: Stdout, counts: &[u32]) -> io::Result<()> {
    for (line, label) in (0..).zip(LABELS) {
        print(stdout, label, counts, line)?;
    }
    print(stdout, b"all", counts, ALL)
}
