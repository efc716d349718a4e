// Asks kth and position at their limits, and of a tree of some hundred pairs, where each has to undo the other.
use crate::calls::Call;
use crate::counts::{count, is_ranked, is_undone, left_below};
use crate::pairs::{drawn, third};
use crate::words::{Words, empty, made, many, part, say_count};
use slots::{NULL, get, put};
use std::io;
use std::io::Stdout;
use trials::print::say;

// The slot at position k, and the position of pair p, in one line.
fn ask(stdout: Stdout, x: &Words, label: &[u8], k: u32, p: u32) -> io::Result<()> {
    say(stdout, label)?;
    let mut words = *x;
    part(stdout, &mut words, b": kth ", Call::Kth(k))?;
    words = *x;
    part(stdout, &mut words, b", position ", Call::Position(p))?;
    say(stdout, b"\n")
}

// The least capacity: no pair, and one.
fn one_slot(stdout: Stdout) -> io::Result<()> {
    let mut x = empty(1, 1);
    ask(stdout, &x, b"capacity 1, empty", 0, 1)?;
    x = made(x, Call::Insert(1, 1));
    ask(stdout, &x, b"one pair", 0, 1)?;
    ask(stdout, &x, b"past the pair", 1, 2)?;
    ask(stdout, &x, b"before the pair, the largest number", NULL, 0)
}

// How many of 300 pairs have the position that they have to have, and how many positions have a slot whose pair has that position again.
fn say_ranked(stdout: Stdout, x: &Words, ranked: u32) -> io::Result<()> {
    say_count(stdout, b"positions as counted", ranked)?;
    let undone = count(300, |k| is_undone(x, k));
    say_count(stdout, b"each undone by the other", undone)
}

// 300 pairs.
fn ask_300(stdout: Stdout, x: &Words) -> io::Result<()> {
    ask(stdout, x, b"300 pairs, the first", 0, 0)?;
    ask(stdout, x, b"300 pairs, the last", 299, 299)?;
    ask(stdout, x, b"300 pairs, past the last", 300, 300)?;
    say_ranked(stdout, x, count(300, |i| is_ranked(x, i, i)))
}

// 200 of them.
fn ask_200(stdout: Stdout, x: &Words) -> io::Result<()> {
    ask(stdout, x, b"200 pairs, the first", 0, 1)?;
    ask(stdout, x, b"200 pairs, the last", 199, 299)?;
    ask(stdout, x, b"200 pairs, past the last", 200, 297)?;
    say_ranked(stdout, x, count(300, |i| is_ranked(x, i, left_below(i))))
}

// Some hundred pairs, in more slots than they take; then a size of the root that is one more, and put right again.
fn hundreds(stdout: Stdout) -> io::Result<()> {
    let mut x = empty(512, 1);
    many(&mut x, 300, |i| Call::Insert(drawn(i), drawn(i)));
    ask_300(stdout, &x)?;
    many(&mut x, 100, |i| Call::Remove(third(i)));
    ask_200(stdout, &x)?;
    let root = get(&x.head, 0, 0);
    put(&mut x.sizes, 0, root, 201);
    ask(stdout, &x, b"a size one off", 0, 1)?;
    put(&mut x.sizes, 0, root, 200);
    ask(stdout, &x, b"the size put right", 0, 1)
}

pub fn run(stdout: Stdout) -> io::Result<()> {
    one_slot(stdout)?;
    hundreds(stdout)
}
