// The section reader's entry points. A reader is eight words, kept by the caller between the calls.
ghost use Rattle.std.specs.Prelude.{◌≡◌};
ghost use Rattle.index_rules.specs.Index.{lent};
ghost use Rattle.reader.specs.Meanings.{words_of};
ghost use Rattle.word_rules.specs.Readers.{reader_in, reader_written, read_worded, started_reader, chunk_read, ended_reader};
ghost use Rattle.exports.specs.Coded.{reader_at_of};

use reader::notes::{of_word, word as note_word};
use reader::words::Reader;
use slots::answer::{Answers, answer_word, packed};
use slots::{put_word, word};

// The reader that eight words say, if they say one.
// Form kept: no TryFrom, since neither the trait nor Reader is of this crate.
fn read_words(words: &[u64]) -> Option<Reader>
    ensures { reader_at_of result ≡ reader_in words.now }
{
    if words.len() != 8 {
        return None;
    }
    let marked = word(words, 5, 0);
    if marked == 0 {
        return None;
    }
    if 4294967296 < marked {
        return None;
    }
    let note = of_word(word(words, 7, 0))?;
    Some(Reader {
        section: word(words, 0, 0),
        got: word(words, 1, 0),
        owed: word(words, 2, 0),
        hash: word(words, 3, 0),
        key: word(words, 4, 0),
        mark: (marked - 1) as u32,
        taken: word(words, 6, 0),
        note,
    })
}

// Form kept: word by word, as the clause reader_written names them.
fn write_words(words: &mut [u64], reader: Reader)
    ensures { words.new ≡ reader_written words.old (words_of reader) }
{
    put_word(words, 0, reader.section);
    put_word(words, 1, reader.got);
    put_word(words, 2, reader.owed);
    put_word(words, 3, reader.hash);
    put_word(words, 4, reader.key);
    put_word(words, 5, reader.mark as u64 + 1);
    put_word(words, 6, reader.taken);
    put_word(words, 7, note_word(reader.note));
}

// Begins an upload: the reader is written, and nothing else; a refused call leaves it as it was.
#[unsafe(no_mangle)]
pub extern "C" fn oz_read_start(
    names: &[u64],
    cells: &[u32],
    head: &[u32],
    sizes: &[u32],
    lines: &[u64],
    reader: &mut [u64],
) -> u64
    ensures { read_worded result
        (lent names.now cells.now head.now sizes.now lines.now)
        reader.new
        ≡ started_reader (lent names.now cells.now head.now sizes.now lines.now)
        reader.old }
{
    if reader.len() != 8 {
        return packed(1, 0);
    }
    let started = Reader::start(names, cells, head, sizes, lines);
    let reply = started.reply;
    let told = answer_word(reply.answer());
    if reply.is_ok() {
        write_words(reader, started.reader);
    }
    told
}

// Takes the bytes of a chunk one after the other.
#[unsafe(no_mangle)]
pub extern "C" fn oz_read_chunk(
    names: &mut [u64],
    cells: &mut [u32],
    head: &mut [u32],
    sizes: &mut [u32],
    lines: &mut [u64],
    reader: &mut [u64],
    chunk: &[u8],
) -> u64
    ensures { read_worded result
        (lent names.new cells.new head.new sizes.new lines.new)
        reader.new
        ≡ chunk_read (lent names.old cells.old head.old sizes.old lines.old)
        reader.old chunk.now }
{
    let Some(kept) = read_words(reader) else {
        return packed(1, 0);
    };
    let read = kept.chunk(names, cells, head, sizes, lines, chunk);
    write_words(reader, read.reader);
    let reply = read.reply;
    answer_word(reply.answer())
}

// The upload has ended.
#[unsafe(no_mangle)]
pub extern "C" fn oz_read_end(
    names: &mut [u64],
    cells: &mut [u32],
    head: &mut [u32],
    sizes: &mut [u32],
    lines: &mut [u64],
    reader: &mut [u64],
) -> u64
    ensures { read_worded result
        (lent names.new cells.new head.new sizes.new lines.new)
        reader.new
        ≡ ended_reader (lent names.old cells.old head.old sizes.old lines.old)
        reader.old }
{
    let Some(kept) = read_words(reader) else {
        return packed(1, 0);
    };
    let read = kept.end(names, cells, head, sizes, lines);
    write_words(reader, read.reader);
    let reply = read.reply;
    answer_word(reply.answer())
}
