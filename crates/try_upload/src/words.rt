// An index of at most eight slots and eight lines and an upload into it, as one value.
use index::fresh::fresh;
use index::insert::insert;
use reader::read::Read;
use reader::reply::ReadRefusal;
use reader::words::Reader;
use slots::answer::{Answer, Answers};
use slots::put_word;
use trials::same::same_index;

// The words of an index; the first of each array are those of so many slots and lines.
// Form kept: the room and how much of it is used stand side by side by the rule of no heap (nothing is allocated in the programs).
#[derive(Clone, Copy)]
pub(crate) struct Words {
    pub names: [u64; 16],
    pub cells: [u32; 56],
    pub head: [u32; 3],
    pub sizes: [u32; 8],
    pub lines: [u64; 49],
    pub slots: u32,
    pub rows: u32,
}

// An index, what the last call of an upload into it answered, and the reader after it.
#[derive(Clone, Copy)]
pub(crate) struct Upload {
    pub words: Words,
    pub read: Read,
}

// The first words of a slice, to be written: as many as are asked for, or all of them where there are no more.
// Form kept: each program has its own, since of a public one no clause that the check proves by itself says what is left of the slice.
pub(crate) fn lend<T>(words: &mut [T], n: usize) -> &mut [T] {
    let most = n.min(words.len());
    &mut words[..most]
}

// Does a step on the words that are lent: what it leaves, and the step's answer and reader.
fn after<F>(x: Upload, step: F) -> Upload
where
    F: FnOnce(&mut [u64], &mut [u32], &mut [u32], &mut [u32], &mut [u64]) -> Read,
    requires { F.IsAlwaysCallable step }
{
    let mut words = x.words;
    let n = words.slots as usize;
    let read = step(
        lend(&mut words.names, 2 * n),
        lend(&mut words.cells, 7 * n),
        &mut words.head,
        lend(&mut words.sizes, n),
        lend(&mut words.lines, 6 * words.rows as usize + 1),
    );
    Upload { words, read }
}

// No upload has begun.
fn unread() -> Read {
    let reader = Reader {
        section: 0,
        got: 0,
        owed: 0,
        hash: 0,
        key: 0,
        mark: 0,
        taken: 0,
        note: None,
    };
    Read {
        reply: Err(ReadRefusal::Unfit),
        reader,
    }
}

// One name more.
pub(crate) fn inserted(x: Upload, hash: u64, key: u64, place: u32) -> Upload {
    after(x, |names, cells, head, sizes, lines| {
        let _ = insert(names, cells, head, sizes, lines, hash, key, place);
        x.read
    })
}

// The index of so many slots and lines that an upload starts on. It has one name.
pub(crate) fn begun(slots: u32, rows: u32) -> Upload {
    let words = Words {
        names: [0; 16],
        cells: [0; 56],
        head: [0; 3],
        sizes: [0; 8],
        lines: [0; 49],
        slots,
        rows,
    };
    let zeros = Upload {
        words,
        read: unread(),
    };
    let empty = after(zeros, |names, cells, head, sizes, lines| {
        let _ = fresh(names, cells, head, sizes, lines);
        zeros.read
    });
    inserted(empty, 9, 9, 77)
}

// The three calls of an upload.
pub(crate) fn started(x: Upload) -> Upload {
    after(x, |names, cells, head, sizes, lines| {
        Reader::start(names, cells, head, sizes, lines)
    })
}

pub(crate) fn chunk(x: Upload, bytes: &[u8]) -> Upload {
    let reader = x.read.reader;
    after(x, |names, cells, head, sizes, lines| {
        reader.chunk(names, cells, head, sizes, lines, bytes)
    })
}

pub(crate) fn ended(x: Upload) -> Upload {
    let reader = x.read.reader;
    after(x, |names, cells, head, sizes, lines| {
        reader.end(names, cells, head, sizes, lines)
    })
}

// What the last of them answered.
pub(crate) fn told(x: Upload) -> Answer {
    x.read.reply.answer()
}

// Whether two indexes have the same words.
pub(crate) fn same(x: Upload, y: Upload) -> bool {
    let (a, b) = (x.words, y.words);
    same_index(
        &a.names, &a.cells, &a.head, &a.sizes, &a.lines, &b.names, &b.cells, &b.head, &b.sizes,
        &b.lines,
    )
}

// With another word of the names, the sizes or the lines.
pub(crate) fn with_name(x: Upload, k: usize, value: u64) -> Upload {
    let mut y = x;
    put_word(&mut y.words.names, k, value);
    y
}

pub(crate) fn with_size(x: Upload, k: usize, value: u32) -> Upload {
    let mut y = x;
    put_word(&mut y.words.sizes, k, value);
    y
}

pub(crate) fn with_line(x: Upload, k: usize, value: u64) -> Upload {
    let mut y = x;
    put_word(&mut y.words.lines, k, value);
    y
}
