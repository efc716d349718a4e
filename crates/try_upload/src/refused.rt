// The sample's trials: each is read in one chunk and byte by byte, and its answers and what it leaves are held against what has to come.
use crate::cuts::{more, one};
use crate::sample::{
    ROOM, Trial, accepted, due, fill, full, hash_of, journal_full, key_of, long, place_of,
    put_byte, put_pair, short, there, twice, wrong_kind,
};
use crate::words::{Upload, begun, chunk, ended, inserted, same, started, told, with_name};
use slots::answer::answer_word;
use std::io;
use std::io::Stdout;
use trials::part::first;
use trials::print::{number, say};

// How much was wrong in a trial, and 1 where a planted name was noticed.
#[derive(Clone, Copy)]
struct Seen {
    wrong: u32,
    noticed: u32,
}

// The key of the planted name.
const PLANTED: u64 = 10;

// 1 where the last call did not answer the word.
fn other_than(word: u64, x: Upload) -> u32 {
    one(answer_word(told(x)) != word)
}

// The index of so many slots and lines with the name of the start, and the first entries by plain inserts.
fn entered(slots: u32, rows: u32, count: u32) -> Upload {
    let mut x = begun(slots, rows);
    for entry in 0..count {
        let slot = more(entry, 1);
        x = inserted(x, hash_of(slot), key_of(slot), place_of(entry));
    }
    x
}

// Whether an index is the one that has to be left.
fn is_left(x: Upload, trial: Trial) -> bool {
    same(x, entered(trial.slots, trial.lines, trial.stay))
}

// The end call and a chunk after it: how many do not answer the word. 1 more where the index is left another than it has to be.
fn wrong_after(x: Upload, trial: Trial) -> u32 {
    let end = ended(x);
    let later = chunk(end, b"\x01");
    let answers = more(other_than(trial.told, end), other_than(trial.told, later));
    more(answers, one(!is_left(later, trial)))
}

// The bytes in one chunk: how many answers are not what is due.
fn wrong_whole(start: Upload, bytes: &[u8], trial: Trial) -> u32 {
    let x = chunk(start, bytes);
    let wrong = other_than(due(trial, bytes.len()), x);
    more(wrong, wrong_after(x, trial))
}

// The same byte by byte.
fn wrong_by_bytes(start: Upload, bytes: &[u8], trial: Trial) -> u32 {
    let mut x = start;
    let mut wrong: u32 = 0;
    for (k, b) in bytes.iter().enumerate() {
        x = chunk(x, &[*b]);
        wrong = more(wrong, other_than(due(trial, k + 1), x));
    }
    more(wrong, wrong_after(x, trial))
}

// 1 where a name that is planted in the place of the start's is noticed.
fn planted(bytes: &[u8], start: Upload, trial: Trial) -> u32 {
    let left = ended(chunk(start, bytes));
    one(!is_left(with_name(left, 1, PLANTED), trial))
}

// The trial's bytes into its slots and lines: both ways, each on an index begun anew, and then the planted name.
fn read_into(bytes: &[u8], trial: Trial) -> Seen {
    let start = started(begun(trial.slots, trial.lines));
    let whole = wrong_whole(start, bytes, trial);
    let parted = wrong_by_bytes(start, bytes, trial);
    Seen {
        wrong: more(whole, parted),
        noticed: planted(bytes, start, trial),
    }
}

// As many of the bytes as the trial reads.
fn read_first(bytes: &[u8; ROOM], trial: Trial) -> Seen {
    read_into(first(bytes, trial.length), trial)
}

// The sample, changed as the trial says, where there are zeros.
fn change(bytes: &mut [u8; ROOM], trial: Trial) {
    fill(bytes);
    put_pair(bytes, trial.entry, trial.slot);
    put_byte(bytes, trial.spot, trial.byte);
}

fn try_one(trial: Trial) -> Seen {
    let mut bytes = [0u8; ROOM];
    change(&mut bytes, trial);
    read_first(&bytes, trial)
}

fn say_tally(stdout: Stdout, label: &[u8], count: u32, right: u32, noticed: u32) -> io::Result<()> {
    number(stdout, label, count)?;
    number(stdout, b" tried, right ", right)?;
    number(stdout, b", planted and noticed ", noticed)?;
    say(stdout, b"\n")
}

// So many trials of a kind: the k-th of them is what the closure gives.
fn tally<F: Fn(u32) -> Trial>(stdout: Stdout, label: &[u8], count: u32, nth: F) -> io::Result<()>
    requires { F.IsAlwaysCallable nth }
{
    let mut right: u32 = 0;
    let mut noticed: u32 = 0;
    for k in 0..count {
        let seen = try_one(nth(k));
        right = more(right, one(seen.wrong == 0));
        noticed = more(noticed, seen.noticed);
    }
    say_tally(stdout, label, count, right, noticed)
}

pub(crate) fn try_refused(stdout: Stdout) -> io::Result<()> {
    tally(stdout, b"the sample as six inserts: ", 1, |_k| accepted())?;
    tally(stdout, b"3, the pair of another entry: ", 30, |k| twice(k))?;
    tally(stdout, b"3, the pair that was there: ", 6, |k| there(k))?;
    tally(stdout, b"5 at each entry: ", 6, |k| full(k))?;
    tally(stdout, b"6 at each entry: ", 6, |k| journal_full(k))?;
    tally(stdout, b"12 after each byte: ", 108, |k| short(k))?;
    tally(stdout, b"13 by each byte: ", 256, |k| long(k))?;
    tally(stdout, b"18 by each byte in each header: ", 1020, |k| {
        wrong_kind(k)
    })
}
