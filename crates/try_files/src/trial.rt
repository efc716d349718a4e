// The trials of a file, each counted.
use crate::SAMPLE;
use crate::run::{Loaded, outcome};
use std::io;
use std::io::Stdout;
use trials::print::{name, say};

fn more(count: u64, by: u64) -> u64 {
    count.wrapping_add(by)
}

// The number of what was answered, 0 where nothing was refused.
// Form kept: the refusals are printed and counted by their numbers, from the words by which two loads are compared.
fn number_of(all: &Loaded) -> u64 {
    all.said / 4294967296
}

// How many of the files cut at i and each j from there on come to something else than the file that is not cut.
fn differ_from(bytes: &[u8], uncut: &Loaded, i: usize) -> u64 {
    let mut count = 0;
    for j in i..=bytes.len() {
        count = more(count, (outcome(bytes, i, j) != *uncut) as u64);
    }
    count
}

// The same for every i.
fn differ_in_all(bytes: &[u8], uncut: &Loaded) -> u64 {
    let mut count = 0;
    for i in 0..=bytes.len() {
        count = more(count, differ_from(bytes, uncut, i));
    }
    count
}

// A file cut at every byte and every pair of bytes: what it comes to, and how often that differs.
pub fn try_cuts(stdout: Stdout, label: &[u8], bytes: &[u8]) -> io::Result<()> {
    let uncut = outcome(bytes, 0, 0);
    say(stdout, label)?;
    name(stdout, b": no ", number_of(&uncut))?;
    name(stdout, b", right ", uncut.right as u64)?;
    name(
        stdout,
        b", differences where it is cut ",
        differ_in_all(bytes, &uncut),
    )?;
    say(stdout, b"\n")
}

// What came of several files: how many of each number, and how many are right.
#[derive(Clone, Copy, Default)]
struct Tally {
    tried: u64,
    accepted: u64,
    ones: u64,
    twos: u64,
    twelves: u64,
    thirteens: u64,
    fourteens: u64,
    right: u64,
}

impl Tally {
    fn count(&mut self, all: &Loaded) {
        let n = number_of(all);
        self.tried = more(self.tried, 1);
        self.accepted = more(self.accepted, (n == 0) as u64);
        self.ones = more(self.ones, (n == 1) as u64);
        self.twos = more(self.twos, (n == 2) as u64);
        self.twelves = more(self.twelves, (n == 12) as u64);
        self.thirteens = more(self.thirteens, (n == 13) as u64);
        self.fourteens = more(self.fourteens, (n == 14) as u64);
        self.right = more(self.right, all.right as u64);
    }

    fn print(&self, stdout: Stdout, label: &[u8]) -> io::Result<()> {
        say(stdout, label)?;
        name(stdout, b": tried ", self.tried)?;
        name(stdout, b", accepted ", self.accepted)?;
        name(stdout, b", no 1: ", self.ones)?;
        name(stdout, b", no 2: ", self.twos)?;
        name(stdout, b", no 12: ", self.twelves)?;
        name(stdout, b", no 13: ", self.thirteens)?;
        name(stdout, b", no 14: ", self.fourteens)?;
        name(stdout, b", right ", self.right)?;
        say(stdout, b"\n")
    }
}

// The file ended at every byte.
pub fn try_ends(stdout: Stdout, bytes: &[u8; SAMPLE]) -> io::Result<()> {
    let mut tally = Tally::default();
    for k in 0..=SAMPLE {
        tally.count(&outcome(&bytes[..k], 0, k / 2));
    }
    tally.print(stdout, b"ended at every byte")
}

// Small numbers, the largest, one more and one less than the byte was, and the byte with its lowest or its highest bit turned.
fn damages(old: u8) -> [u8; 10] {
    [
        0,
        1,
        2,
        3,
        7,
        255,
        old.wrapping_add(1),
        old.wrapping_sub(1),
        old ^ 1,
        old ^ 128,
    ]
}

// Every byte damaged in every way, the file cut around it; the byte is then as it was.
pub fn try_damage(stdout: Stdout, bytes: &mut [u8; SAMPLE]) -> io::Result<()> {
    let mut tally = Tally::default();
    for k in 0..SAMPLE {
        let old = bytes[k];
        for other in damages(old) {
            if other != old {
                bytes[k] = other;
                tally.count(&outcome(bytes, k, k + 1));
            }
        }
        bytes[k] = old;
    }
    tally.print(stdout, b"every byte damaged")
}

// The bytes and one more, whatever it is.
pub fn try_longer(stdout: Stdout, bytes: &[u8; SAMPLE]) -> io::Result<()> {
    let mut tally = Tally::default();
    for last in 0..=u8::MAX {
        let mut longer = [last; SAMPLE + 1];
        longer[..SAMPLE].copy_from_slice(bytes);
        tally.count(&outcome(&longer, 0, SAMPLE));
    }
    tally.print(stdout, b"a byte more")
}
