// The file of what is left, and the line, of a set's file.
ghost use Rattle.std.specs.Prelude.{◌≡◌, List, [], ◌∷◌, ℕ};
ghost use Rattle.script_rules.specs.Blanks.{says};
ghost use Rattle.script_rules.specs.Feeding.{typed, lent_paper};
ghost use Rattle.set_rules.specs.Words.{lent_set};
ghost use Rattle.file_rules.specs.Saving.{saved};
ghost use Rattle.file_rules.specs.Loading.{cut_out, load_whole};
ghost use Rattle.file.specs.Saved.{save_of};
ghost use Rattle.file.specs.Meanings.{loader_words, loaded_of};
ghost use Rattle.move_rules.specs.Finishing.{finishing};
ghost use Rattle.move_rules.specs.Printed.{saved_written, finish_written, load_written, file_written, written_out, lined_out};
ghost use Rattle.mover.specs.Moved.{move_refusal_of};
ghost use Rattle.mover.specs.Finished.{finish_of};

use crate::cut::front;
use console::fill::fill;
use file::load::Load;
use file::loader::Loader;
use file::save::save;
use mover::finishing::{Stop, finish};
use slots::answer::{Answers, Unsound};
use slots::{MOST_CELLS, MOST_NAMES};

// The most tables, bins and words of headers that a set has.
// Form kept: named here and in frozen, as lengths of arrays; the loader's limits (most_of in file) are numbers of items, by the section.
const MOST_TABLES: usize = 8;

const MOST_BINS: usize = 8160;

const MOST_HEADS: usize = 3 * 4096;

// How many bytes of a file and of a line were written.
#[derive(Clone, Copy)]
pub struct FileFinished {
    pub written: usize,
    pub said: usize,
}

// No file is written: the number of the refusal.
fn tell_no(text: &mut [u8], number: u32) -> FileFinished
    ensures { (result.written ≡ 0)
        × (lent_paper text.new result.said ≡ typed (lent_paper text.old 0) (says "no #\n" (number ∷ []))) }
{
    let numbers = [number as u64];
    let said = fill(text, 0, b"no #\n", &numbers);
    FileFinished { written: 0, said }
}

// No file is written: the number of the refusal, the table and the bin.
fn tell_stop(text: &mut [u8], stop: Stop) -> FileFinished
    ensures { (result.written ≡ 0)
        × (lent_paper text.new result.said
        ≡ typed (lent_paper text.old 0)
        (says "no # table # bin #\n" ((move_refusal_of stop.refusal).number ∷ (stop.table ∷ (stop.bin ∷ []))))) }
{
    let number = stop.refusal.answer().number;
    let numbers = [number as u64, stop.table as u64, stop.bin as u64];
    let said = fill(text, 0, b"no # table # bin #\n", &numbers);
    FileFinished { written: 0, said }
}

// What save answered, and how many entries were moved.
fn tell_saved(text: &mut [u8], gone: u32, reply: Result<u32, Unsound>) -> FileFinished
    ensures { (out : List ℕ) → written_out result.written out (lent_paper text.new result.said)
        ≡ lined_out (saved_written gone (saved (save_of reply) out)) (lent_paper text.old 0) }
{
    match reply {
        Ok(bytes) => {
            let numbers = [gone as u64];
            let said = fill(text, 0, b"moved #\n", &numbers);
            FileFinished {
                written: bytes as usize,
                said,
            }
        },
        Err(refusal) => tell_no(text, refusal.answer().number),
    }
}

// All bins are moved, or a move was refused.
fn write_set(
    lengths: &[u32],
    bins: &[u32],
    heads: &[u32],
    names: &[u64],
    cells: &[u32],
    told: Result<u32, Stop>,
    out: &mut [u8],
    text: &mut [u8],
) -> FileFinished
    ensures { written_out result.written out.new (lent_paper text.new result.said)
        ≡ lined_out (finish_written (finish_of told
        (lent_set lengths.now bins.now heads.now names.now cells.now))
        out.old) (lent_paper text.old 0) }
{
    match told {
        Err(stop) => tell_stop(text, stop),
        Ok(gone) => tell_saved(text, gone, save(lengths, bins, heads, names, cells, out)),
    }
}

// The bins of a set are moved, and what is left is written.
fn finish_set(
    lengths: &[u32],
    bins: &mut [u32],
    heads: &mut [u32],
    names: &[u64],
    cells: &mut [u32],
    out: &mut [u8],
    text: &mut [u8],
) -> FileFinished
    ensures { written_out result.written out.new (lent_paper text.new result.said)
        ≡ lined_out (finish_written (finishing
        (lent_set lengths.now bins.old heads.old names.now cells.old))
        out.old) (lent_paper text.old 0) }
{
    let told = finish(lengths, bins, heads, names, cells);
    write_set(lengths, bins, heads, names, cells, told, out, text)
}

// The set that the counts cut out of the slices.
fn finish_cut(
    r: Loader,
    lengths: &[u32],
    bins: &mut [u32],
    heads: &mut [u32],
    names: &[u64],
    cells: &mut [u32],
    out: &mut [u8],
    text: &mut [u8],
) -> FileFinished
    ensures { written_out result.written out.new (lent_paper text.new result.said)
        ≡ lined_out (finish_written (finishing (cut_out (loader_words r)
        (lent_set lengths.now bins.old heads.old names.now cells.old)))
        out.old) (lent_paper text.old 0) }
{
    let tables = front(r.tables, 1, lengths.len());
    let words = front(r.words, 1, bins.len());
    let headers = front(r.headers, 3, heads.len());
    let named = front(r.slots, 2, names.len());
    let linked = front(r.slots, 7, cells.len());
    finish_set(
        &lengths[..tables],
        &mut bins[..words],
        &mut heads[..headers],
        &names[..named],
        &mut cells[..linked],
        out,
        text,
    )
}

// What the end call of the loader answered decides.
fn finish_loaded(
    load: Load,
    lengths: &[u32],
    bins: &mut [u32],
    heads: &mut [u32],
    names: &[u64],
    cells: &mut [u32],
    out: &mut [u8],
    text: &mut [u8],
) -> FileFinished
    ensures { written_out result.written out.new (lent_paper text.new result.said)
        ≡ lined_out (load_written (loaded_of load
        (lent_set lengths.now bins.old heads.old names.now cells.old))
        out.old) (lent_paper text.old 0) }
{
    match load.reply {
        Err(refusal) => tell_no(text, refusal.answer().number),
        Ok(_) => finish_cut(load.loader, lengths, bins, heads, names, cells, out, text),
    }
}

// The bytes in one chunk, into these slices.
fn load_whole(
    bytes: &[u8],
    lengths: &mut [u32],
    bins: &mut [u32],
    heads: &mut [u32],
    names: &mut [u64],
    cells: &mut [u32],
) -> Load
    ensures { loaded_of result
        (lent_set lengths.new bins.new heads.new names.new cells.new)
        ≡ load_whole
        (lent_set lengths.old bins.old heads.old names.old cells.old)
        bytes.now }
{
    let started = Loader::start();
    let read = started
        .loader
        .chunk(lengths, bins, heads, names, cells, bytes);
    read.loader.end(lengths, bins, heads, names, cells)
}

// Writes the file of what is left at the front of `out`, and the line at the front of `text`, and answers how many bytes each has.
pub fn answer(bytes: &[u8], out: &mut [u8], text: &mut [u8]) -> FileFinished
    ensures { written_out result.written out.new (lent_paper text.new result.said)
        ≡ lined_out (file_written bytes.now out.old) (lent_paper text.old 0) }
{
    // Form kept: arrays of the most words, of which the fronts are used, since the library has no heap.
    let mut lengths = [0u32; MOST_TABLES];
    let mut bins = [0u32; MOST_BINS];
    let mut heads = [0u32; MOST_HEADS];
    let mut names = [0u64; MOST_NAMES];
    let mut cells = [0u32; MOST_CELLS];
    let load = load_whole(
        bytes,
        &mut lengths,
        &mut bins,
        &mut heads,
        &mut names,
        &mut cells,
    );
    finish_loaded(
        load, &lengths, &mut bins, &mut heads, &names, &mut cells, out, text,
    )
}
