// Damages a journal in one word at a time, asks rollback, and prints its answer and whether the lent slices are as they were before
// the call; where they are not, also what the tree then holds.
use crate::calls::Call;
use crate::words::{Words, empty, made, part, same, say_held};
use index::journal::{
    LINE_KEY, LINE_KIND, LINE_PLACE, LINE_PRIOR_HASH, LINE_PRIOR_KEY, NOTED_REMOVE, REMOVE,
};
use slots::{PLACE, put, put_name};
use std::io;
use std::io::Stdout;
use trials::print::say;

// One more than a 32-bit word holds.
const HIGH: u64 = 4294967296;

// Whether words are those they have to be.
fn say_same(stdout: Stdout, label: &[u8], same: bool) -> io::Result<()> {
    say(stdout, label)?;
    if same {
        return say(stdout, b": all as it was\n");
    }
    say(stdout, b": other words\n")
}

// An index of n slots is rolled back to mark: what is answered, whether it is then what it was, and where it is not what it holds.
fn roll(stdout: Stdout, label: &[u8], x: Words, n: u32, mark: u32) -> io::Result<()> {
    say(stdout, label)?;
    let mut rolled = x;
    part(stdout, &mut rolled, b": ", Call::Rollback(mark))?;
    if same(&x, &rolled) {
        say(stdout, b", all as it was")?;
    } else {
        say(stdout, b", written")?;
        say_held(stdout, &rolled, n)?;
    }
    say(stdout, b"\n")
}

// Of so many slots and lines, with 1 inserted, and then 2.
fn two_pairs(n: u32) -> Words {
    let one = made(empty(n, n), Call::Insert(1, 10));
    made(one, Call::Insert(2, 20))
}

// Word f of line k set to value.
fn damaged(x: Words, k: u32, f: u32, value: u64) -> Words {
    let mut after = x;
    put_name(&mut after.lines, 0, 6 * (k % 4) + f % 6 + 1, value);
    after
}

// Three lines of which the last is that of a call. Word f of line k is set to value, and they are rolled back to mark.
fn ask_three(
    stdout: Stdout,
    label: &[u8],
    call: Call,
    k: u32,
    f: u32,
    value: u64,
    mark: u32,
) -> io::Result<()> {
    let x = made(two_pairs(3), call);
    roll(stdout, label, damaged(x, k, f, value), 3, mark)
}

// Of the three lines that end in a removal.
fn ask(stdout: Stdout, label: &[u8], k: u32, f: u32, value: u64, mark: u32) -> io::Result<()> {
    ask_three(stdout, label, Call::Remove(1), k, f, value, mark)
}

// Of the three lines that end in a replace line: the place of 1 was 10 and is 11.
fn ask_replaced(
    stdout: Stdout,
    label: &[u8],
    k: u32,
    f: u32,
    value: u64,
    mark: u32,
) -> io::Result<()> {
    ask_three(stdout, label, Call::Replace(1, 11), k, f, value, mark)
}

// Of four lines: 1, 2 and 3 are inserted and 2, which then has 3 before it and 1 behind it in the chain, is removed.
fn ask_noted(
    stdout: Stdout,
    label: &[u8],
    k: u32,
    f: u32,
    value: u64,
    mark: u32,
) -> io::Result<()> {
    let three = made(two_pairs(4), Call::Insert(3, 30));
    let x = made(three, Call::Remove(2));
    roll(stdout, label, damaged(x, k, f, value), 4, mark)
}

// One slot, in use, and a line that says that pair (0, 9) was removed.
fn ask_full(stdout: Stdout, label: &[u8]) -> io::Result<()> {
    let x = made(empty(1, 1), Call::Insert(1, 10));
    let other = damaged(x, 0, LINE_KEY, 9);
    roll(stdout, label, damaged(other, 0, LINE_KIND, REMOVE), 1, 0)
}

// The three lines that end in a removal, and a root that is a free slot.
fn ask_unsound(stdout: Stdout, label: &[u8]) -> io::Result<()> {
    let x = made(two_pairs(3), Call::Remove(1));
    let mut other = x;
    other.head[0] = 2;
    roll(stdout, label, other, 3, 0)
}

// A replace of 2, with its place then set to the old one again: whether no other word of the tree is another.
fn ask_only_place(stdout: Stdout, label: &[u8]) -> io::Result<()> {
    let before = two_pairs(3);
    let moved = made(before, Call::Replace(2, 21));
    let mut mended = moved;
    put(&mut mended.cells, 1, PLACE, 20);
    mended.lines = before.lines;
    say_same(stdout, label, same(&before, &mended))
}

// A replace that is rolled back: whether every word is as it was.
fn ask_back(stdout: Stdout, label: &[u8]) -> io::Result<()> {
    let before = two_pairs(3);
    let moved = made(before, Call::Replace(2, 21));
    let back = made(moved, Call::Rollback(2));
    say_same(stdout, label, same(&before, &back))
}

// The same of the pair that a remove line notes: it has to be there at that point, and the pair comes back right behind it, at the front
// where none is noted. No other line's words of a pair before are read.
fn noted_pairs(stdout: Stdout) -> io::Result<()> {
    ask_noted(stdout, b"a noted pair as written", 3, LINE_PRIOR_KEY, 3, 3)?;
    ask_noted(
        stdout,
        b"another noted pair that is there",
        3,
        LINE_PRIOR_KEY,
        1,
        3,
    )?;
    ask_noted(
        stdout,
        b"a noted pair that is not there",
        3,
        LINE_PRIOR_KEY,
        7,
        3,
    )?;
    ask_noted(
        stdout,
        b"a noted hash that is not there",
        3,
        LINE_PRIOR_HASH,
        1,
        3,
    )?;
    ask_noted(
        stdout,
        b"the line's own pair noted",
        3,
        LINE_PRIOR_KEY,
        2,
        3,
    )?;
    ask_noted(
        stdout,
        b"kind 2, a pair before not read",
        3,
        LINE_KIND,
        2,
        3,
    )?;
    ask_noted(
        stdout,
        b"kind 3 with a high half",
        3,
        LINE_KIND,
        HIGH + 3,
        3,
    )?;
    ask_noted(
        stdout,
        b"kind 2 with a higher half",
        3,
        LINE_KIND,
        2 * HIGH + 2,
        3,
    )?;
    ask_noted(
        stdout,
        b"an insert line's pair before is not read",
        2,
        LINE_PRIOR_KEY,
        7,
        2,
    )?;
    ask_noted(
        stdout,
        b"an insert line's kind with a high half",
        2,
        LINE_KIND,
        HIGH + 1,
        2,
    )?;
    ask_noted(
        stdout,
        b"all lines as written",
        3,
        LINE_KIND,
        NOTED_REMOVE,
        0,
    )?;
    ask_replaced(
        stdout,
        b"a replace line's pair before is not read",
        2,
        LINE_PRIOR_KEY,
        7,
        2,
    )
}

// The word of a replace line: the new place, and the old one above it.
const WORD: u64 = 11 + 10 * HIGH;

// The same of a replace line: what it fits is the pair with the new place, whatever the old one was.
fn replace_lines(stdout: Stdout) -> io::Result<()> {
    ask_replaced(stdout, b"a replace line as written", 2, LINE_PLACE, WORD, 0)?;
    ask_replaced(stdout, b"the same, to mark 2", 2, LINE_PLACE, WORD, 2)?;
    ask_replaced(
        stdout,
        b"another old place, to mark 2",
        2,
        LINE_PLACE,
        11 + 77 * HIGH,
        2,
    )?;
    ask_replaced(
        stdout,
        b"the old place null, to mark 2",
        2,
        LINE_PLACE,
        11 + 4294967295 * HIGH,
        2,
    )?;
    ask_replaced(stdout, b"the old place 0, to mark 2", 2, LINE_PLACE, 11, 2)?;
    ask_replaced(
        stdout,
        b"another old place, to mark 1",
        2,
        LINE_PLACE,
        11 + 77 * HIGH,
        1,
    )?;
    ask_replaced(
        stdout,
        b"another old place, to mark 0",
        2,
        LINE_PLACE,
        11 + 77 * HIGH,
        0,
    )?;
    ask_replaced(
        stdout,
        b"another new place",
        2,
        LINE_PLACE,
        12 + 10 * HIGH,
        2,
    )?;
    ask_replaced(
        stdout,
        b"the places exchanged",
        2,
        LINE_PLACE,
        10 + 11 * HIGH,
        2,
    )?;
    ask_replaced(stdout, b"a pair that is not there", 2, LINE_KEY, 7, 2)?;
    ask_replaced(stdout, b"another pair that is there", 2, LINE_KEY, 2, 2)?;
    ask_replaced(
        stdout,
        b"a replace line as an insert line",
        2,
        LINE_KIND,
        1,
        2,
    )?;
    ask_replaced(
        stdout,
        b"a replace line as a remove line",
        2,
        LINE_KIND,
        2,
        2,
    )?;
    ask_replaced(stdout, b"a replace line as kind 4", 2, LINE_KIND, 4, 2)?;
    ask_replaced(
        stdout,
        b"a replace line's kind with a high half",
        2,
        LINE_KIND,
        HIGH + 3,
        2,
    )?;
    ask_replaced(
        stdout,
        b"an insert line as a replace line",
        1,
        LINE_KIND,
        3,
        1,
    )?;
    ask_only_place(stdout, b"a replace, but for the place")?;
    ask_back(stdout, b"a replace, rolled back")
}

// A question for each way in which a line can misfit, between lines and marks that fit.
pub fn run(stdout: Stdout) -> io::Result<()> {
    ask(stdout, b"the lines as written", 0, LINE_KEY, 1, 0)?;
    ask(stdout, b"the same, to mark 1", 0, LINE_KEY, 1, 1)?;
    ask(stdout, b"the same, to mark 2", 0, LINE_KEY, 1, 2)?;
    ask(stdout, b"mark at the length", 0, LINE_KEY, 1, 3)?;
    ask(stdout, b"mark above the length", 0, LINE_KEY, 1, 4)?;
    ask(stdout, b"kind 0", 2, LINE_KIND, 0, 0)?;
    ask(stdout, b"kind 4", 2, LINE_KIND, 4, 0)?;
    ask(
        stdout,
        b"a remove line as a replace line",
        2,
        LINE_KIND,
        3,
        0,
    )?;
    ask(
        stdout,
        b"an insert line's kind with a high half",
        1,
        LINE_KIND,
        HIGH + 1,
        0,
    )?;
    ask(
        stdout,
        b"an insert line's place with a high half",
        1,
        LINE_PLACE,
        HIGH + 20,
        0,
    )?;
    ask(
        stdout,
        b"a remove line's place with a high half",
        2,
        LINE_PLACE,
        HIGH + 10,
        0,
    )?;
    ask(stdout, b"a pair that is not there", 1, LINE_KEY, 7, 0)?;
    ask(stdout, b"another place", 1, LINE_PLACE, 21, 0)?;
    ask(
        stdout,
        b"another place in the first line",
        0,
        LINE_PLACE,
        11,
        0,
    )?;
    ask(
        stdout,
        b"a remove line whose pair is there",
        2,
        LINE_KEY,
        2,
        0,
    )?;
    ask_full(stdout, b"no free slot")?;
    ask_unsound(stdout, b"a tree that is not sound")?;
    ask(
        stdout,
        b"lines below the mark are not read",
        0,
        LINE_KIND,
        4,
        1,
    )?;
    replace_lines(stdout)?;
    noted_pairs(stdout)
}
