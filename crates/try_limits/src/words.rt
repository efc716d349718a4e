// The words of an index as one value: a list of calls hands on one thing, and not five slices.
use crate::calls::{Call, make, say_answer};
use crate::contents::say_entries;
use index::journal::is_full;
use slots::answer::Answer;
use slots::{get, name, put_name};
use std::io;
use std::io::Stdout;
use trials::part::first;
use trials::print::{line, name as say_name, say};
use trials::same::same_index;

// How many words of each slice are lent.
// Form kept: the room and how much of it is lent stand side by side by the rule of no heap (nothing is allocated in the programs).
#[derive(Clone, Copy)]
pub struct Room {
    pub names: usize,
    pub cells: usize,
    pub head: usize,
    pub sizes: usize,
    pub lines: usize,
}

#[derive(Clone, Copy)]
pub struct Words {
    pub names: [u64; 8195],
    pub cells: [u32; 28680],
    pub head: [u32; 4],
    pub sizes: [u32; 4100],
    pub lines: [u64; 6152],
    pub room: Room,
}

impl Words {
    pub fn lent_names(&self) -> &[u64] {
        first(&self.names, self.room.names)
    }

    pub fn lent_cells(&self) -> &[u32] {
        first(&self.cells, self.room.cells)
    }

    pub fn lent_head(&self) -> &[u32] {
        first(&self.head, self.room.head)
    }

    pub fn lent_sizes(&self) -> &[u32] {
        first(&self.sizes, self.room.sizes)
    }
}

// The first words of a slice, to be written: as many as are asked for, or all of them where there are no more.
// Form kept: each program has its own, since of a public one no clause that the check proves by itself says what is left of the slice.
fn lend<T>(words: &mut [T], n: usize) -> &mut [T] {
    let most = n.min(words.len());
    &mut words[..most]
}

// Makes a call on the words that are lent.
fn told(x: &mut Words, call: Call) -> Answer {
    let room = x.room;
    make(
        call,
        lend(&mut x.names, room.names),
        lend(&mut x.cells, room.cells),
        lend(&mut x.head, room.head),
        lend(&mut x.sizes, room.sizes),
        lend(&mut x.lines, room.lines),
    )
}

// Makes n calls, each with a journal that is emptied where it is full: how many were accepted.
pub(crate) fn many<F: Fn(u32) -> Call>(x: &mut Words, n: u32, nth: F) -> u32
    requires { F.IsAlwaysCallable nth }
{
    let mut accepted: u32 = 0;
    for i in 0..n {
        if is_full(first(&x.lines, x.room.lines)) {
            put_name(&mut x.lines, 0, 0, 0);
        }
        accepted = accepted.wrapping_add(u32::from(told(x, nth(i)).number == 0));
    }
    accepted
}

// The words after a call of which nothing is printed.
pub fn made(x: Words, call: Call) -> Words {
    let mut after = x;
    let _ = told(&mut after, call);
    after
}

// The words become those after a call, whose answer is printed behind a label.
pub fn part(stdout: Stdout, x: &mut Words, label: &[u8], call: Call) -> io::Result<()> {
    let answer = told(x, call);
    say_answer(stdout, label, call, answer)
}

// The same, in a line of its own.
pub fn ask(stdout: Stdout, x: &mut Words, label: &[u8], call: Call) -> io::Result<()> {
    say(stdout, label)?;
    part(stdout, x, b": ", call)?;
    say(stdout, b"\n")
}

// An empty index of so many slots and lines.
pub fn empty(slots: u32, lines: u32) -> Words {
    let room = Room {
        names: 2 * slots as usize,
        cells: 7 * slots as usize,
        head: 3,
        sizes: slots as usize,
        lines: 6 * lines as usize + 1,
    };
    let zeros = Words {
        names: [0; 8195],
        cells: [0; 28680],
        head: [0; 4],
        sizes: [0; 4100],
        lines: [0; 6152],
        room,
    };
    made(zeros, Call::Fresh)
}

// Whether two have the same words.
pub fn same(x: &Words, y: &Words) -> bool {
    same_index(
        &x.names, &x.cells, &x.head, &x.sizes, &x.lines, &y.names, &y.cells, &y.head, &y.sizes,
        &y.lines,
    )
}

// How many entries an index of n slots has, and which.
pub fn say_held(stdout: Stdout, x: &Words, n: u32) -> io::Result<()> {
    say_entries(stdout, &x.names, &x.cells, &x.head, n)
}

// The journal's length.
pub fn say_length(stdout: Stdout, x: &Words) -> io::Result<()> {
    say_name(stdout, b", lines ", name(&x.lines, 0, 0))
}

// Whether the tree is sound, and its count, since the answers alone do not say what is left.
pub fn tree(stdout: Stdout, x: &Words) -> io::Result<()> {
    let count = get(&x.head, 0, 2);
    let mut words = *x;
    let sound = told(&mut words, Call::Sound);
    if sound.value == Some(1) {
        return line(stdout, b"the tree", b": sound, count ", count);
    }
    line(stdout, b"the tree", b": not sound, count ", count)
}

// How many of many calls were accepted.
pub fn say_accepted(stdout: Stdout, label: &[u8], accepted: u32) -> io::Result<()> {
    line(stdout, label, b": accepted ", accepted)
}

// How many there are of what is counted.
pub fn say_count(stdout: Stdout, label: &[u8], count: u32) -> io::Result<()> {
    line(stdout, label, b": ", count)
}
