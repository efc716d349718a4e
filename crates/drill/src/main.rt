// The drill. The longest script is cut after every call, rolled back to a mark that varies with the cut, held against a second index
// that ran only the calls of the lines that are kept, rolled back to 0 and run again, every answer held against the model's. The short
// script is cut after every call and rolled back to every mark up to the journal's length: the tree has to hold what it held at the
// mark, in the same order along the chain, and the journal the lines that it had. After each of these rollbacks two neighbours of
// the chain are exchanged in a copy, and in another a name is planted behind the journal's back; the comparison has to notice each. The
// list of calls, with replaces among them, is cut as the longest script is, and a place is planted and two neighbours are exchanged at
// each cut.
#![tactic(auto)]

mod chain;
mod cuts;
mod entries;
mod marks;
mod numbers;
mod sources;
mod steps;
mod table;
mod words;

use cuts::{Tally, cut_all};
use marks::try_short;
use numbers::{read, starts};
use sources::{Source, text_room};
use std::io;
use std::io::Stdout;
use std::rt::Files;
use trials::load::load;
use trials::print::{number, say};

// What came of the cuts of a source.
fn print_cuts(stdout: Stdout, t: Tally) -> io::Result<()> {
    number(stdout, b"cuts ", t.cuts)?;
    number(stdout, b" rollbacks ", t.rollbacks)?;
    number(stdout, b" refused ", t.refused)?;
    number(stdout, b" runs ", t.runs)?;
    number(stdout, b" differences ", t.differences)
}

// The longest script's line. It runs on 512 slots and 1,024 lines, so that a line is left when the tree is full.
fn drill_longest<R: Files>(
    rt: &R,
    stdout: Stdout,
    script: &mut [u8],
    answers: &mut [u8],
) -> io::Result<()> {
    let mut numbers = [0u64; 4096];
    let length = load(rt, b"longest.txt", script);
    let answered = load(rt, b"answers.txt", answers);
    let n = starts(&script[..length], &mut numbers);
    let source = Source::Script {
        script: &script[..length],
        answers: &answers[..answered],
        starts: &numbers,
    };
    let t = cut_all(512, 1024, source, n);
    say(stdout, b"longest: ")?;
    print_cuts(stdout, t)?;
    say(stdout, b"\n")
}

// The short script's line.
fn print_marks(stdout: Stdout, t: marks::Tally) -> io::Result<()> {
    number(stdout, b"marks: cuts ", t.cuts)?;
    number(stdout, b" rollbacks ", t.rollbacks)?;
    number(stdout, b" differences ", t.differences)?;
    number(stdout, b" planted ", t.planted)?;
    number(stdout, b" noticed ", t.noticed)?;
    number(stdout, b" exchanged ", t.exchanged)?;
    number(stdout, b" noticed ", t.seen)?;
    say(stdout, b"\n")
}

fn drill_short<R: Files>(
    rt: &R,
    stdout: Stdout,
    script: &mut [u8],
    rows: &mut [u32],
) -> io::Result<()> {
    let n = load(rt, b"marks.txt", script);
    print_marks(stdout, try_short(&script[..n], rows))
}

// Reads the numbers of a file, and answers how many it has.
fn load_numbers<R: Files>(rt: &R, path: &[u8], text: &mut [u8], words: &mut [u64]) -> u32 {
    let n = load(rt, path, text);
    read(&text[..n], words)
}

// The line of the list of calls.
fn print_calls(stdout: Stdout, t: Tally) -> io::Result<()> {
    say(stdout, b"calls: ")?;
    print_cuts(stdout, t)?;
    number(stdout, b" planted ", t.planted)?;
    number(stdout, b" noticed ", t.noticed)?;
    number(stdout, b" exchanged ", t.exchanged)?;
    number(stdout, b" noticed ", t.seen)?;
    say(stdout, b"\n")
}

// The list of calls, on 64 slots and 128 lines, with the word that each has to answer.
fn drill_calls<R: Files>(rt: &R, stdout: Stdout, text: &mut [u8]) -> io::Result<()> {
    let mut calls = [0u64; 4096];
    let mut words = [0u64; 1024];
    let n = load_numbers(rt, b"calls.txt", text, &mut calls);
    load_numbers(rt, b"words.txt", text, &mut words);
    let source = Source::List {
        calls: &calls,
        words: &words,
    };
    print_calls(stdout, cut_all(64, 128, source, n / 4))
}

// Rooms for what is read from files and for the calls of a script, with lengths that a proof need not count.
// Form kept: each program that needs such a room has its own, since a public one would owe a claim that counts its zeros.
fn file_room() -> [u8; 65536] {
    [0; 65536]
}

fn call_room() -> [u32; 49248] {
    [0; 49248]
}

fn main(rt: HostRuntime) -> io::Result<()> {
    let stdout = rt.stdout();
    let mut bytes = file_room();
    let mut answers = text_room();
    let mut rows = call_room();
    drill_longest(&rt, stdout, &mut bytes, &mut answers)?;
    drill_short(&rt, stdout, &mut bytes, &mut rows)?;
    drill_calls(&rt, stdout, &mut bytes)
}
