// What is printed: a label, an answer, and a cursor's numbers.
use sets::lookup::NoTable;
use sets::walk::{Cursor, NextRefusal};
use slots::NULL;
use slots::answer::Answers;
use std::io;
use std::io::Stdout;
use tree::find::{Found, counted_by};
use trials::print::{answer, answer_or, number, say};

// A link: null, or the slot's number.
fn link(stdout: Stdout, words: &[u8], value: u32) -> io::Result<()> {
    if value == NULL {
        say(stdout, words)?;
        say(stdout, b"null")?;
    } else {
        number(stdout, words, value)?;
    }
    Ok(())
}

// The cursor's base, depth, eight indexes and last slot.
pub fn cursor(stdout: Stdout, c: Cursor) -> io::Result<()> {
    number(stdout, b" base ", c.base)?;
    number(stdout, b" depth ", c.depth)?;
    say(stdout, b" indexes")?;
    for i in c.indexes {
        number(stdout, b" ", i)?;
    }
    link(stdout, b" last ", c.last)?;
    say(stdout, b"\n")
}

pub fn given(stdout: Stdout, given: Result<Option<u32>, NextRefusal>) -> io::Result<()> {
    answer_or(stdout, b"", b"slot ", b"done", given.answer())
}

pub fn looked(stdout: Stdout, looked: Result<Found<u32>, NoTable>) -> io::Result<()> {
    let counted = counted_by(looked);
    answer_or(stdout, b": ", b"at ", b"none", counted.answer)
}

pub fn refused(stdout: Stdout, refusal: NoTable) -> io::Result<()> {
    answer(stdout, b": ", b"", refusal.answer())
}
