// Asks insert, replace, remove, rollback, sound, check, kth and position of an empty tree whose words are unfit, or that is damaged.
// Prints what each of them answers, and whether the lent words are as they were before the first call.
use crate::calls::Call;
use crate::words::{Room, Words, empty, part, same};
use slots::NULL;
use std::io;
use std::io::Stdout;
use trials::print::say;

// An empty index, with the journal's length, the root, the count and the first slot's size as given.
fn prepared(length: u64, root: u32, count: u32, first: u32) -> Words {
    let mut x = empty(4096, 1024);
    x.lines[0] = length;
    x.head[0] = root;
    x.head[2] = count;
    x.sizes[0] = first;
    x
}

// The four calls that can write, the two checks, and the two calls by position.
fn ask_eight(stdout: Stdout, x: &mut Words) -> io::Result<()> {
    part(stdout, x, b": insert ", Call::Insert(1, 10))?;
    part(stdout, x, b", replace ", Call::Replace(1, 11))?;
    part(stdout, x, b", remove ", Call::Remove(2))?;
    part(stdout, x, b", rollback ", Call::Rollback(1))?;
    part(stdout, x, b", sound ", Call::Sound)?;
    part(stdout, x, b", check ", Call::Check)?;
    part(stdout, x, b", kth ", Call::Kth(0))?;
    part(stdout, x, b", position ", Call::Position(1))
}

// An empty tree and an empty journal, with the journal's length, the root, the count and the first slot's size as given, and n, c, h, z
// and l words of names, cells, header, sizes and lines.
fn ask(
    stdout: Stdout,
    label: &[u8],
    n: usize,
    c: usize,
    h: usize,
    z: usize,
    l: usize,
    length: u64,
    root: u32,
    count: u32,
    first: u32,
) -> io::Result<()> {
    let room = Room {
        names: n,
        cells: c,
        head: h,
        sizes: z,
        lines: l,
    };
    let mut x = prepared(length, root, count, first);
    x.room = room;
    let before = x;
    say(stdout, label)?;
    ask_eight(stdout, &mut x)?;
    if same(&before, &x) {
        return say(stdout, b", all as it was\n");
    }
    say(stdout, b", written\n")
}

// Each slice one word off, beside words that fit.
fn lengths(stdout: Stdout) -> io::Result<()> {
    ask(stdout, b"four slots", 8, 28, 3, 4, 25, 0, NULL, 0, 0)?;
    ask(stdout, b"names one short", 7, 28, 3, 4, 25, 0, NULL, 0, 0)?;
    ask(stdout, b"names one long", 9, 28, 3, 4, 25, 0, NULL, 0, 0)?;
    ask(stdout, b"cells one short", 8, 27, 3, 4, 25, 0, NULL, 0, 0)?;
    ask(stdout, b"cells one long", 8, 29, 3, 4, 25, 0, NULL, 0, 0)?;
    ask(stdout, b"header one short", 8, 28, 2, 4, 25, 0, NULL, 0, 0)?;
    ask(stdout, b"header one long", 8, 28, 4, 4, 25, 0, NULL, 0, 0)?;
    ask(stdout, b"sizes one short", 8, 28, 3, 3, 25, 0, NULL, 0, 0)?;
    ask(stdout, b"sizes one long", 8, 28, 3, 5, 25, 0, NULL, 0, 0)?;
    ask(stdout, b"no word of sizes", 8, 28, 3, 0, 25, 0, NULL, 0, 0)?;
    ask(stdout, b"lines one short", 8, 28, 3, 4, 24, 0, NULL, 0, 0)?;
    ask(stdout, b"lines one long", 8, 28, 3, 4, 26, 0, NULL, 0, 0)?;
    ask(
        stdout,
        b"lines of four words each",
        8,
        28,
        3,
        4,
        17,
        0,
        NULL,
        0,
        0,
    )
}

// The capacities of the tree and of the journal, and one past each.
fn capacities(stdout: Stdout) -> io::Result<()> {
    ask(stdout, b"capacity 0", 0, 0, 3, 0, 25, 0, NULL, 0, 0)?;
    ask(
        stdout,
        b"capacity 4096",
        8192,
        28672,
        3,
        4096,
        25,
        0,
        NULL,
        0,
        0,
    )?;
    ask(
        stdout,
        b"capacity 4097",
        8194,
        28679,
        3,
        4097,
        25,
        0,
        NULL,
        0,
        0,
    )?;
    ask(
        stdout,
        b"no word of a journal",
        8,
        28,
        3,
        4,
        0,
        0,
        NULL,
        0,
        0,
    )?;
    ask(stdout, b"journal of 0 lines", 8, 28, 3, 4, 1, 0, NULL, 0, 0)?;
    ask(
        stdout,
        b"journal of 1024 lines",
        8,
        28,
        3,
        4,
        6145,
        0,
        NULL,
        0,
        0,
    )?;
    ask(
        stdout,
        b"journal of 1025 lines",
        8,
        28,
        3,
        4,
        6151,
        0,
        NULL,
        0,
        0,
    )?;
    ask(
        stdout,
        b"length at the capacity",
        8,
        28,
        3,
        4,
        25,
        4,
        NULL,
        0,
        0,
    )?;
    ask(
        stdout,
        b"length past the capacity",
        8,
        28,
        3,
        4,
        25,
        5,
        NULL,
        0,
        0,
    )?;
    ask(
        stdout,
        b"length with a high half",
        8,
        28,
        3,
        4,
        25,
        4294967296,
        NULL,
        0,
        0,
    )
}

// Trees that are not sound, and what comes before that and after it.
fn damages(stdout: Stdout) -> io::Result<()> {
    ask(stdout, b"count that lies", 8, 28, 3, 4, 25, 0, NULL, 1, 0)?;
    ask(stdout, b"root without a count", 8, 28, 3, 4, 25, 0, 0, 0, 0)?;
    ask(
        stdout,
        b"root that names no slot",
        8,
        28,
        3,
        4,
        25,
        0,
        4,
        0,
        0,
    )?;
    ask(
        stdout,
        b"size in a free slot",
        8,
        28,
        3,
        4,
        25,
        0,
        NULL,
        0,
        1,
    )?;
    ask(
        stdout,
        b"damaged, length at the capacity",
        8,
        28,
        3,
        4,
        25,
        4,
        NULL,
        1,
        0,
    )?;
    ask(
        stdout,
        b"damaged, length past the capacity",
        8,
        28,
        3,
        4,
        25,
        5,
        NULL,
        1,
        0,
    )?;
    ask(
        stdout,
        b"damaged, names one short",
        7,
        28,
        3,
        4,
        25,
        0,
        NULL,
        1,
        0,
    )
}

pub fn run(stdout: Stdout) -> io::Result<()> {
    lengths(stdout)?;
    capacities(stdout)?;
    damages(stdout)
}
