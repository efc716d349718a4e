// The trials of an input, each counted.
use crate::expect::{Figures, TOTALS, expected};
use crate::run::outcome;
use crate::{BACK, WEEK};
use std::io;
use std::io::Stdout;
use trials::print::{name, say};

// A count that does not come near 64 bits, with some more.
pub fn more(count: u64, by: u64) -> u64 {
    count.wrapping_add(by)
}

// A line: what was tried, how often, and how often it differed.
pub fn told(stdout: Stdout, label: &[u8], tried: u64, differences: u64) -> io::Result<u64> {
    say(stdout, label)?;
    name(stdout, b": tried ", tried)?;
    name(stdout, b", differences ", differences)?;
    say(stdout, b"\n")?;
    Ok(differences)
}

// The figures of sets and refused ones, all other words 0.
fn figures_from(sets: u64, refused: u64) -> Figures {
    let mut totals = [0u64; TOTALS];
    totals[0] = sets;
    totals[1] = refused;
    Figures {
        totals,
        over: false,
    }
}

// The two orders come to the same, and to what is expected.
pub fn try_order(stdout: Stdout, week: &[u8; WEEK], back: &[u8; BACK]) -> io::Result<u64> {
    let none = figures_from(0, 0);
    let right = expected(week, WEEK, none);
    let first = outcome(week, 0, none) != right;
    let second = outcome(back, 0, none) != right;
    told(stdout, b"two orders", 2, more(first as u64, second as u64))
}

// The input cut at every byte into two pieces.
pub fn try_cuts(stdout: Stdout, week: &[u8; WEEK]) -> io::Result<u64> {
    let none = figures_from(0, 0);
    let right = expected(week, WEEK, none);
    let mut count = 0;
    for i in 0..=WEEK {
        count = more(count, (outcome(week, i, none) != right) as u64);
    }
    told(stdout, b"cut at every byte", WEEK as u64 + 1, count)
}

// Whether the first so many bytes come to other figures than are expected.
fn differs_at(week: &[u8; WEEK], end: usize, from: Figures) -> bool {
    match week.get(..end) {
        Some(part) => outcome(part, end / 2, from) != expected(week, end, from),
        None => true,
    }
}

// The input ended at every byte.
pub fn try_ends(stdout: Stdout, week: &[u8; WEEK]) -> io::Result<u64> {
    let none = figures_from(0, 0);
    let mut count = 0;
    for end in 0..=WEEK {
        count = more(count, differs_at(week, end, none) as u64);
    }
    told(stdout, b"ended at every byte", WEEK as u64 + 1, count)
}

// The totals near a million sets, or refused ones: from the first set that is too many on, 17 is told and nothing is added.
pub fn try_million(stdout: Stdout, week: &[u8; WEEK]) -> io::Result<u64> {
    let mut count = 0;
    for before in 999980..=1000000u64 {
        count = more(
            count,
            differs_at(week, WEEK, figures_from(before, 0)) as u64,
        );
        count = more(
            count,
            differs_at(week, WEEK, figures_from(0, before)) as u64,
        );
    }
    told(stdout, b"near a million", 42, count)
}
