// What is printed: a line to each kind of trial, and one to all of them.
use crate::counts::{Count, Counts};
use std::io;
use std::io::Stdout;
use trials::print::{number, say};

// The labels, in the order of the kinds.
const LABELS: [&[u8]; 13] = [
    b"from a list",
    b"from a list, a half of one hash",
    b"from a tree",
    b"from a tree, a half of one hash",
    b"slices that do not fit",
    b"no such table",
    b"a word of the set",
    b"no next table",
    b"no such bin",
    b"Moved already",
    b"its parent not Moved",
    b"all bins",
    b"all",
];

// One line.
fn print(stdout: Stdout, label: &[u8], count: Count) -> io::Result<()> {
    say(stdout, label)?;
    number(stdout, b": tried ", count.tried)?;
    number(stdout, b", refused ", count.refused)?;
    number(stdout, b", entries moved ", count.moved)?;
    number(stdout, b", differences ", count.differences)?;
    say(stdout, b"\n")
}

pub fn report(stdout: Stdout, counts: &Counts) -> io::Result<()> {
    for (label, count) in LABELS.iter().zip(counts.iter()) {
        print(stdout, label, *count)?;
    }
    Ok(())
}
