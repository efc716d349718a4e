// Uploads that fill the slots, and the lines: the last entry is refused, and nothing stays of those before it.
use crate::words::lend;
use index::fresh::fresh;
use reader::words::Reader;
use slots::answer::{Answer, Answers};
use slots::{COUNT, word};
use std::io;
use std::io::Stdout;
use trials::print::{answer, name, number, say};

// The bytes of a section of kind 1 with 1,025 entries, each with its number as key.
const MANY: usize = 16403;

fn fill(bytes: &mut [u8; MANY]) {
    bytes[0] = 1;
    bytes[1] = 1;
    bytes[2] = 4;
    for k in 0..1025usize {
        bytes[3 + 16 * k + 8] = (k % 256) as u8;
        bytes[3 + 16 * k + 9] = (k / 256 % 256) as u8;
    }
}

// An upload into the index of these slices.
fn read(
    names: &mut [u64],
    cells: &mut [u32],
    head: &mut [u32],
    sizes: &mut [u32],
    lines: &mut [u64],
    bytes: &[u8],
) -> Answer {
    let started = Reader::start(names, cells, head, sizes, lines);
    let first = started
        .reader
        .chunk(names, cells, head, sizes, lines, bytes);
    first.reply.answer()
}

// The same, into an empty index.
fn read_fresh(
    names: &mut [u64],
    cells: &mut [u32],
    head: &mut [u32],
    sizes: &mut [u32],
    lines: &mut [u64],
    bytes: &[u8],
) -> Answer {
    let _ = fresh(names, cells, head, sizes, lines);
    read(names, cells, head, sizes, lines, bytes)
}

fn say_left(
    stdout: Stdout,
    label: &[u8],
    told: Answer,
    head: &[u32],
    lines: &[u64],
) -> io::Result<()> {
    answer(stdout, label, b"entries ", told)?;
    number(stdout, b", names left ", word(head, COUNT, 0))?;
    name(stdout, b", lines left ", word(lines, 0, 0))?;
    say(stdout, b"\n")
}

// An upload into an empty index of so many slots and lines, and what it leaves.
fn fill_in(
    stdout: Stdout,
    label: &[u8],
    slots: u32,
    rows: u32,
    bytes: &[u8; MANY],
) -> io::Result<()> {
    let mut names = [0u64; slots::MOST_NAMES];
    let mut cells = [0u32; slots::MOST_CELLS];
    let mut head = [0u32; 3];
    let mut sizes = [0u32; slots::MOST_SLOTS];
    let mut lines = [0u64; 6145];
    let n = slots as usize;
    let told = read_fresh(
        lend(&mut names, 2 * n),
        lend(&mut cells, 7 * n),
        &mut head,
        lend(&mut sizes, n),
        lend(&mut lines, 6 * rows as usize + 1),
        bytes,
    );
    say_left(stdout, label, told, &head, &lines)
}

// Section 1 has 1,024 entries, of which the last has the pair of the first.
fn repeat_first(bytes: &mut [u8; MANY]) {
    bytes[1] = 0;
    bytes[16379] = 0;
    bytes[16380] = 0;
}

pub(crate) fn try_full(stdout: Stdout) -> io::Result<()> {
    let mut bytes = [0u8; MANY];
    fill(&mut bytes);
    fill_in(stdout, b"1,025 entries, 1,024 lines: ", 4096, 1024, &bytes)?;
    fill_in(stdout, b"1,025 entries, 1,024 slots: ", 1024, 1024, &bytes)?;
    fill_in(stdout, b"1,025 entries, one slot: ", 1, 2, &bytes)?;
    fill_in(stdout, b"1,025 entries, no line: ", 1, 0, &bytes)?;
    repeat_first(&mut bytes);
    fill_in(
        stdout,
        b"1,024 entries, the last as the first: ",
        1024,
        1024,
        &bytes,
    )
}
