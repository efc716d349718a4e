// Zeros: of a slice from a word on, and of all five slices.
ghost use Rattle.std.specs.Prelude.{◌≡◌, ◌++◌, ◌-◌, length, take, replicate};
ghost use Rattle.set_rules.specs.Words.{lent_set};
ghost use Rattle.file_rules.specs.Loader.{FitLoader};
ghost use Rattle.file_rules.specs.Loading.{loading, rest_zeroed, rests_zeroed, load_refused};
ghost use Rattle.file.specs.Meanings.{loader_words, load_refusal_of};

use crate::loader::{Loader, note_in};
use crate::reply::LoadRefusal;

// The words from one on become a value.
// Form kept: tried with get_mut(from..) and fill, and the proof did not close: fill asks that the clone of a T cannot fail.
fn fill_from<T: Copy>(words: &mut [T], from: usize, value: T)
    ensures { words.new ≡ take from words.old ++ replicate (length words.old - from) value }
{
    for i in from..words.len() {
        words[i] = value;
    }
}

// 0 into the rest of each slice, behind what the counts say.
pub(crate) fn clear_rests(
    lengths: &mut [u32],
    bins: &mut [u32],
    heads: &mut [u32],
    names: &mut [u64],
    cells: &mut [u32],
    r: Loader,
)
    requires { FitLoader (loader_words r) }
    ensures { lent_set lengths.new bins.new heads.new names.new cells.new
        ≡ rests_zeroed (loader_words r)
        (lent_set lengths.old bins.old heads.old names.old cells.old) }
{
    fill_from(lengths, r.tables as usize, 0);
    fill_from(bins, r.words as usize, 0);
    fill_from(heads, 3 * r.headers as usize, 0);
    fill_from(names, 2 * r.slots as usize, 0);
    fill_from(cells, 7 * r.slots as usize, 0)
}

// A refusal: every word of the slices becomes 0, and it is noted.
pub(crate) fn refuse(
    lengths: &mut [u32],
    bins: &mut [u32],
    heads: &mut [u32],
    names: &mut [u64],
    cells: &mut [u32],
    r: Loader,
    refusal: LoadRefusal,
) -> Loader
    ensures { loading (loader_words result)
        (lent_set lengths.new bins.new heads.new names.new cells.new)
        ≡ load_refused (loader_words r)
        (lent_set lengths.old bins.old heads.old names.old cells.old)
        (load_refusal_of refusal) }
{
    fill_from(lengths, 0, 0);
    fill_from(bins, 0, 0);
    fill_from(heads, 0, 0);
    fill_from(names, 0, 0);
    fill_from(cells, 0, 0);
    note_in(r, Err(refusal))
}
