// Somebody else writes between two calls. What the next one answers, and whether it leaves the words as they were written.
use crate::cuts::one;
use crate::words::{Upload, begun, chunk, ended, same, started, told, with_line, with_size};
use std::io;
use std::io::Stdout;
use trials::print::{answer, number, say};

// The first section, with one entry.
const SECTION: [u8; 19] = [1, 1, 0, 1, 0, 0, 0, 0, 0, 0, 0, 2, 0, 0, 0, 0, 0, 0, 0];

// The first section with two entries, but for its last byte: the second is new, or it is the first again.
const NEW: [u8; 34] =
    *b"\x01\x02\0\x01\0\0\0\0\0\0\0\x02\0\0\0\0\0\0\0\x01\0\0\0\0\0\0\0\x03\0\0\0\0\0\0";

const AGAIN: [u8; 34] =
    *b"\x01\x02\0\x01\0\0\0\0\0\0\0\x02\0\0\0\0\0\0\0\x01\0\0\0\0\0\0\0\x02\0\0\0\0\0\0";

// A chunk, or the end call where it has no bytes.
fn call(x: Upload, bytes: &[u8]) -> Upload {
    if bytes.is_empty() {
        return ended(x);
    }
    chunk(x, bytes)
}

// A part of an upload into an index begun anew, the write, and a call; then a chunk of one byte and the end call. The words are held
// against those that the write left.
fn ask<F: Fn(Upload) -> Upload>(
    stdout: Stdout,
    site: &[u8],
    label: &[u8],
    part: &[u8],
    bytes: &[u8],
    write: F,
) -> io::Result<()>
    requires { F.IsAlwaysCallable write }
{
    let start = write(chunk(started(begun(8, 8)), part));
    let first = call(start, bytes);
    let second = chunk(first, b"\x02");
    let third = ended(second);
    say(stdout, site)?;
    answer(stdout, label, b"entries ", told(first))?;
    number(stdout, b", words kept ", one(same(first, start)))?;
    answer(stdout, b", then ", b"entries ", told(second))?;
    answer(stdout, b", at the end ", b"entries ", told(third))?;
    number(stdout, b", words kept ", one(same(third, start)))?;
    say(stdout, b"\n")
}

// Each write between a part and a call: the journal's length made more than it has lines; a size of a free slot; the length made 0, which
// is below the mark, or 1, which is the mark; a line's place.
fn each_write(stdout: Stdout, site: &[u8], part: &[u8], bytes: &[u8]) -> io::Result<()> {
    let past = b", the length past the lines: ";
    ask(stdout, site, past, part, bytes, |x| with_line(x, 0, 9))?;
    let size = b", a size that does not agree: ";
    ask(stdout, site, size, part, bytes, |x| with_size(x, 7, 1))?;
    let below = b", the length below the mark: ";
    ask(stdout, site, below, part, bytes, |x| with_line(x, 0, 0))?;
    let back = b", the length back at the mark: ";
    ask(stdout, site, back, part, bytes, |x| with_line(x, 0, 1))?;
    let place = b", another place in a line: ";
    ask(stdout, site, place, part, bytes, |x| with_line(x, 10, 5))
}

pub(crate) fn try_foreign(stdout: Stdout, upload: &[u8]) -> io::Result<()> {
    each_write(stdout, b"a right kind", &SECTION, b"\x02")?;
    each_write(stdout, b"a wrong kind", &SECTION, b"\x07")?;
    each_write(stdout, b"a new entry", &NEW, b"\0")?;
    each_write(stdout, b"an entry again", &AGAIN, b"\0")?;
    each_write(stdout, b"the end of a part", &SECTION, b"")?;
    each_write(stdout, b"the end of all", upload, b"")
}
