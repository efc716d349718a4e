// Runs insert, remove, replace and rollback at their limits: capacity 1 and 4,096, a journal of 0 and of 1,024 lines.
use crate::calls::Call;
use crate::counts::{count, is_restored, listed};
use crate::pairs::{drained, filled};
use crate::words::{
    Words, ask, empty, made, many, part, say_accepted, say_count, say_held, say_length, tree,
};
use slots::NULL;
use std::io;
use std::io::Stdout;
use trials::print::say;

// One pair fills the tree, and no other goes in before it is gone. A rollback has to free the slot before it can take the old pair back.
fn one_slot(stdout: Stdout) -> io::Result<()> {
    let mut x = empty(1, 4);
    ask(stdout, &mut x, b"capacity 1, insert 1", Call::Insert(1, 10))?;
    ask(stdout, &mut x, b"insert 1 again", Call::Insert(1, 11))?;
    ask(stdout, &mut x, b"insert 2", Call::Insert(2, 20))?;
    ask(stdout, &mut x, b"remove 2", Call::Remove(2))?;
    ask(stdout, &mut x, b"remove 1", Call::Remove(1))?;
    ask(stdout, &mut x, b"insert 2", Call::Insert(2, 20))?;
    ask(stdout, &mut x, b"rollback to 1", Call::Rollback(1))?;
    say(stdout, b"the tree")?;
    say_held(stdout, &x, 1)?;
    say(stdout, b"\n")?;
    ask(stdout, &mut x, b"remove 2", Call::Remove(2))?;
    tree(stdout, &x)
}

// A call, its answer, and what is left in one slot.
fn show(stdout: Stdout, x: &mut Words, label: &[u8], call: Call) -> io::Result<()> {
    say(stdout, label)?;
    part(stdout, x, b": ", call)?;
    say_length(stdout, x)?;
    say_held(stdout, x, 1)?;
    say(stdout, b"\n")
}

// Four lines: an insert, and three replaces, which are taken back, the last first.
fn one_pair_moved(stdout: Stdout) -> io::Result<()> {
    let mut x = empty(1, 4);
    show(
        stdout,
        &mut x,
        b"capacity 1, replace 1",
        Call::Replace(1, 11),
    )?;
    x = made(x, Call::Insert(1, 10));
    show(
        stdout,
        &mut x,
        b"with 1 at place 10, replace 1",
        Call::Replace(1, NULL),
    )?;
    show(stdout, &mut x, b"by the same place", Call::Replace(1, NULL))?;
    show(stdout, &mut x, b"by place 0", Call::Replace(1, 0))?;
    show(
        stdout,
        &mut x,
        b"no line left, replace 1",
        Call::Replace(1, 7),
    )?;
    show(
        stdout,
        &mut x,
        b"no line left, replace 2",
        Call::Replace(2, 7),
    )?;
    show(stdout, &mut x, b"rollback to 3", Call::Rollback(3))?;
    show(stdout, &mut x, b"rollback to 2", Call::Rollback(2))?;
    show(stdout, &mut x, b"rollback to 1", Call::Rollback(1))?;
    tree(stdout, &x)
}

// The least journal: it is full from the start, and only a rollback to 0 is accepted.
fn no_line(stdout: Stdout) -> io::Result<()> {
    let mut x = empty(1, 0);
    ask(stdout, &mut x, b"journal 0, insert 1", Call::Insert(1, 10))?;
    ask(stdout, &mut x, b"remove 1", Call::Remove(1))?;
    ask(stdout, &mut x, b"replace 1", Call::Replace(1, 1))?;
    ask(stdout, &mut x, b"rollback to 0", Call::Rollback(0))?;
    ask(stdout, &mut x, b"rollback to 1", Call::Rollback(1))
}

// The first n pairs go in, each with its number as its place: how many were accepted.
fn enter(x: &mut Words, n: u32) -> u32 {
    many(x, n, |i| Call::Insert(filled(i), filled(i)))
}

// The journal is filled up and emptied by a rollback.
fn all_lines(stdout: Stdout, x: &mut Words) -> io::Result<()> {
    let accepted = enter(x, 1024);
    say_accepted(stdout, b"capacity 4096, journal 1024", accepted)?;
    ask(stdout, x, b"insert 5000", Call::Insert(5000, 1))?;
    ask(stdout, x, b"remove 0", Call::Remove(0))?;
    ask(stdout, x, b"replace 0", Call::Replace(0, 1))?;
    ask(stdout, x, b"replace 5000", Call::Replace(5000, 1))?;
    ask(stdout, x, b"rollback to 0", Call::Rollback(0))?;
    tree(stdout, x)
}

// The tree is filled up and emptied by removals.
fn fill_and_drain(stdout: Stdout, x: &mut Words) -> io::Result<()> {
    let accepted = enter(x, 4096);
    say_accepted(stdout, b"filled", accepted)?;
    tree(stdout, x)?;
    ask(stdout, x, b"insert 5000", Call::Insert(5000, 1))?;
    let accepted = many(x, 4096, |i| Call::Remove(drained(i)));
    say_accepted(stdout, b"emptied in another order", accepted)?;
    tree(stdout, x)
}

// The last 1,024 removals are undone.
fn undo_last(stdout: Stdout, x: &mut Words) -> io::Result<()> {
    ask(stdout, x, b"rollback to 0", Call::Rollback(0))?;
    tree(stdout, x)?;
    let words: &Words = x;
    let restored = count(4096, |i| is_restored(words, i));
    say_count(stdout, b"pairs as at the mark", restored)?;
    say_count(stdout, b"neighbours listed as at the mark", listed(words))
}

// The largest capacity and the largest journal, each filled up and emptied.
fn all_slots(stdout: Stdout) -> io::Result<()> {
    let mut x = empty(4096, 1024);
    all_lines(stdout, &mut x)?;
    fill_and_drain(stdout, &mut x)?;
    undo_last(stdout, &mut x)
}

// From the least limits to the largest.
pub fn run(stdout: Stdout) -> io::Result<()> {
    one_slot(stdout)?;
    one_pair_moved(stdout)?;
    no_line(stdout)?;
    all_slots(stdout)
}
