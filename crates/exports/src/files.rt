// A set's file: save, and the loader's entry points. A loader is eight words, kept by the caller between the calls.
ghost use Rattle.std.specs.Prelude.{◌≡◌};
ghost use Rattle.set_rules.specs.Words.{lent_set};
ghost use Rattle.file_rules.specs.Saving.{saves};
ghost use Rattle.file.specs.Meanings.{loader_words};
ghost use Rattle.word_rules.specs.Loaders.{SaveWorded, save_worded, loader_in, loader_written, loader_worded, started_loader};
ghost use Rattle.word_rules.specs.Loaders.{load_worded, chunk_loaded, ended_loader};
ghost use Rattle.exports.specs.Coded.{loader_at_of};

use file::loader::Loader;
use file::notes::{of_word, word as note_word};
use file::save::save;
use slots::answer::{Answers, answer_word, packed};
use slots::{put_word, word};

// The loader that eight words say, if they say one.
// Form kept: no TryFrom, since neither the trait nor Loader is of this crate.
fn read_loader(words: &[u64]) -> Option<Loader>
    ensures { loader_at_of result ≡ loader_in words.now }
{
    if words.len() != 8 {
        return None;
    }
    let note = of_word(word(words, 7, 0))?;
    Some(Loader {
        section: word(words, 0, 0),
        at: word(words, 1, 0),
        part: word(words, 2, 0),
        tables: word(words, 3, 0),
        words: word(words, 4, 0),
        headers: word(words, 5, 0),
        slots: word(words, 6, 0),
        note,
    })
}

// Form kept: word by word, as the clause loader_written names them.
fn write_loader(words: &mut [u64], loader: Loader)
    ensures { words.new ≡ loader_written words.old (loader_words loader) }
{
    put_word(words, 0, loader.section);
    put_word(words, 1, loader.at);
    put_word(words, 2, loader.part);
    put_word(words, 3, loader.tables);
    put_word(words, 4, loader.words);
    put_word(words, 5, loader.headers);
    put_word(words, 6, loader.slots);
    put_word(words, 7, note_word(loader.note));
}

// The bytes of an accepted set's file, written at the front of `out`; a refused call writes nothing.
#[unsafe(no_mangle)]
pub extern "C" fn oz_save(
    lengths: &[u32],
    bins: &[u32],
    heads: &[u32],
    names: &[u64],
    cells: &[u32],
    out: &mut [u8],
) -> u64
    ensures { record { word = result; out = out.new }
        ≡ save_worded
        (saves (lent_set lengths.now bins.now heads.now names.now cells.now)
        out.old) }
{
    let made = save(lengths, bins, heads, names, cells, out);
    answer_word(made.answer())
}

// Begins a file: the loader is written, and nothing else.
#[unsafe(no_mangle)]
pub extern "C" fn oz_load_start(loader: &mut [u64]) -> u64
    ensures { loader_worded result loader.new ≡ started_loader loader.old }
{
    if loader.len() != 8 {
        return packed(1, 0);
    }
    let started = Loader::start();
    write_loader(loader, started.loader);
    let reply = started.reply;
    answer_word(reply.answer())
}

// Takes the bytes of a chunk one after the other.
#[unsafe(no_mangle)]
pub extern "C" fn oz_load_chunk(
    lengths: &mut [u32],
    bins: &mut [u32],
    heads: &mut [u32],
    names: &mut [u64],
    cells: &mut [u32],
    loader: &mut [u64],
    chunk: &[u8],
) -> u64
    ensures { load_worded result
        (lent_set lengths.new bins.new heads.new names.new cells.new)
        loader.new
        ≡ chunk_loaded
        (lent_set lengths.old bins.old heads.old names.old cells.old)
        loader.old chunk.now }
{
    let Some(kept) = read_loader(loader) else {
        return packed(1, 0);
    };
    let load = kept.chunk(lengths, bins, heads, names, cells, chunk);
    write_loader(loader, load.loader);
    let reply = load.reply;
    answer_word(reply.answer())
}

// The file has ended.
#[unsafe(no_mangle)]
pub extern "C" fn oz_load_end(
    lengths: &mut [u32],
    bins: &mut [u32],
    heads: &mut [u32],
    names: &mut [u64],
    cells: &mut [u32],
    loader: &mut [u64],
) -> u64
    ensures { load_worded result
        (lent_set lengths.new bins.new heads.new names.new cells.new)
        loader.new
        ≡ ended_loader
        (lent_set lengths.old bins.old heads.old names.old cells.old)
        loader.old }
{
    let Some(kept) = read_loader(loader) else {
        return packed(1, 0);
    };
    let load = kept.end(lengths, bins, heads, names, cells);
    write_loader(loader, load.loader);
    let reply = load.reply;
    answer_word(reply.answer())
}
