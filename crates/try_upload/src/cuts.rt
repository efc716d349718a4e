// One upload, read whole and cut in three at every pair of bytes, into an index of eight slots and eight lines that has one name.
use crate::words::{Upload, begun, chunk, ended, inserted, same, started, told};
use slots::answer::answer_word;
use std::io;
use std::io::Stdout;
use trials::print::{answer, number, say};

// 1 for yes, so that it can be counted.
pub(crate) fn one(yes: bool) -> u32 {
    u32::from(yes)
}

pub(crate) fn more(count: u32, by: u32) -> u32 {
    count.wrapping_add(by)
}

// The bytes from i to before j; all of them where i and j are not in their order within them.
fn part_of(bytes: &[u8], i: usize, j: usize) -> &[u8] {
    bytes.get(i..j).unwrap_or(bytes)
}

// The upload in three chunks, cut at i and j, into an index begun anew, and the end call.
fn read_cut(bytes: &[u8], i: usize, j: usize) -> Upload {
    let n = bytes.len();
    let start = started(begun(8, 8));
    let first = chunk(start, part_of(bytes, 0, i));
    let second = chunk(first, part_of(bytes, i, j));
    let third = chunk(second, part_of(bytes, j, n));
    ended(third)
}

// 1 where the upload cut at i and j has another answer, or leaves another word, than it has uncut.
fn differs(bytes: &[u8], i: usize, j: usize) -> u32 {
    let cut = read_cut(bytes, i, j);
    let uncut = read_cut(bytes, 0, 0);
    one(answer_word(told(cut)) != answer_word(told(uncut)) || !same(cut, uncut))
}

// The same for every j from i on: how many differ.
fn differ_from(bytes: &[u8], i: usize) -> u32 {
    let mut count: u32 = 0;
    for j in i..=bytes.len() {
        count = more(count, differs(bytes, i, j));
    }
    count
}

// The same for every i.
fn differ_in_all(bytes: &[u8]) -> u32 {
    let mut count: u32 = 0;
    for i in 0..=bytes.len() {
        count = more(count, differ_from(bytes, i));
    }
    count
}

// Prints what the upload is answered, in how many ways to cut it that differs, whether it leaves the index of the start, and whether a
// name planted there is noticed.
pub(crate) fn whole_and_cut(stdout: Stdout, label: &[u8], bytes: &[u8]) -> io::Result<()> {
    let read = read_cut(bytes, 0, 0);
    let start = begun(8, 8);
    let left = same(start, read);
    let unnoticed = same(inserted(start, 1, 2, 3), read);
    answer(stdout, label, b"entries ", told(read))?;
    number(
        stdout,
        b", differences where it is cut ",
        differ_in_all(bytes),
    )?;
    number(stdout, b", as at the start ", one(left))?;
    number(stdout, b", planted and noticed ", one(!unnoticed))?;
    say(stdout, b"\n")
}
