// What is printed: a line to each kind of damage, and one to all of them.
use crate::counts::{ALL, COLUMNS};
use slots::word;
use std::io;
use std::io::Stdout;
use trials::print::{number, say};

// The labels of the lines: the words, one at a time, two slots at a time, and what is refused.
const LABELS: [&[u8]; 18] = [
    b"as it is",
    b"a hash",
    b"a key",
    b"a place",
    b"a state",
    b"a parent",
    b"a left link",
    b"a right link",
    b"a prev",
    b"a next",
    b"two pairs exchanged",
    b"a pair repeated",
    b"two states exchanged",
    b"a pair repeated, and a state unknown",
    b"a word of the second tree",
    b"a second tree with a name",
    b"a second tree of another capacity",
    b"a report of fewer words than slots",
];

// A column of a line.
fn at(counts: &[u32], line: u32, column: u32) -> u32 {
    word(counts, line as usize * COLUMNS + column as usize, 0)
}

// One line to a kind.
fn print(stdout: Stdout, label: &[u8], counts: &[u32], line: u32) -> io::Result<()> {
    say(stdout, label)?;
    number(stdout, b": tried ", at(counts, line, 0))?;
    number(stdout, b", refused ", at(counts, line, 1))?;
    number(stdout, b", slots kept ", at(counts, line, 2))?;
    number(stdout, b", free ", at(counts, line, 3))?;
    number(stdout, b", unknown ", at(counts, line, 4))?;
    number(stdout, b", repeats ", at(counts, line, 5))?;
    number(stdout, b", entries lost ", at(counts, line, 6))?;
    number(stdout, b", differences ", at(counts, line, 7))?;
    say(stdout, b"\n")
}

pub fn report(stdout: Stdout, counts: &[u32]) -> io::Result<()> {
    for (line, label) in (0..).zip(LABELS) {
        print(stdout, label, counts, line)?;
    }
    print(stdout, b"all", counts, ALL)
}
