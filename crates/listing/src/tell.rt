// What is printed of what the end call of a loader answers.
ghost use Rattle.std.specs.Prelude.{◌≡◌, ◌≤◌, length};
ghost use Rattle.script_rules.specs.Feeding.{typed, lent_paper};
ghost use Rattle.set_rules.specs.Words.{lent_set};
ghost use Rattle.file_rules.specs.Loading.{cut_out};
ghost use Rattle.file.specs.Meanings.{loader_words, loaded_of};
ghost use Rattle.listing_rules.specs.Lines.{set_text, load_text};

use crate::lines::tell_set;
use console::fill::fill;
use file::cut::{front_cells, front_heads, front_names, front_words};
use file::load::Load;
use file::loader::Loader;
use slots::answer::Answers;

// The set that the counts cut out of the slices.
// Form kept: five cuts here and in tally, since a routine for both would hand out five slices at once.
fn tell_cut(
    out: &mut [u8],
    r: Loader,
    lengths: &[u32],
    bins: &[u32],
    heads: &[u32],
    names: &[u64],
    cells: &[u32],
) -> usize
    ensures { lent_paper out.new result
        ≡ typed (lent_paper out.old 0)
        (set_text (cut_out (loader_words r)
        (lent_set lengths.now bins.now heads.now names.now cells.now))) }
{
    let tables = front_words(lengths, r.tables);
    let words = front_words(bins, r.words);
    let headers = front_heads(heads, r.headers);
    let named = front_names(names, r.slots);
    let linked = front_cells(cells, r.slots);
    tell_set(out, tables, words, headers, named, linked)
}

// Writes what is printed of what was loaded, and answers how many bytes were written: all of it where there is room for 524,288.
pub fn tell(
    load: Load,
    lengths: &[u32],
    bins: &[u32],
    heads: &[u32],
    names: &[u64],
    cells: &[u32],
    out: &mut [u8],
) -> usize
    ensures result_after { lent_paper out.new result
        ≡ typed (lent_paper out.old 0)
        (load_text (loaded_of load
        (lent_set lengths.now bins.now heads.now names.now cells.now))) }
    ensures bounds { result ≤ length out.new }
{
    match load.reply {
        Ok(_) => tell_cut(out, load.loader, lengths, bins, heads, names, cells),
        Err(refusal) => {
            let numbers = [refusal.answer().number as u64];
            fill(out, 0, b"no #\n", &numbers)
        }
    }
}
