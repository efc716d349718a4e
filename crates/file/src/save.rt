// Save: the file of an accepted set, written at the front of a lent slice.
ghost use Rattle.std.specs.Prelude.{◌≡◌, ◌+◌, ◌*◌, ◌/◌, ◌≤◌};
ghost use Rattle.set_rules.specs.Words.{lent_set};
ghost use Rattle.file_rules.specs.Saving.{saved, saves};
ghost use Rattle.file.specs.Saved.{save_of};

use crate::put::put_set;
use sets::accept::accept;
use sets::fit::fit_set;
use slots::answer::Unsound;

// The bytes of a set's file, by the lengths of its slices.
fn file_size(tables: usize, words: usize, heads: usize, names: usize) -> usize
    requires { (tables ≤ 8) × (words ≤ 8160) × (heads ≤ 12288) × (names ≤ 8192) }
    ensures { result ≡ 16 + 4 * tables + 4 * words + 12 * (heads / 3) + 41 * (names / 2) }
{
    16 + 4 * tables + 4 * words + 12 * (heads / 3) + 41 * (names / 2)
}

// "Save writes the file at the front of `out` and answers the number of its bytes; bytes past it stay."
pub fn save(
    lengths: &[u32],
    bins: &[u32],
    heads: &[u32],
    names: &[u64],
    cells: &[u32],
    out: &mut [u8],
) -> Result<u32, Unsound>
    ensures { saved (save_of result) out.new
        ≡ saves (lent_set lengths.now bins.now heads.now names.now cells.now)
        out.old }
{
    let fit = fit_set(lengths, bins, heads, names, cells);
    if !fit {
        return Err(Unsound::Unfit);
    }
    let size = file_size(lengths.len(), bins.len(), heads.len(), names.len());
    if out.len() < size {
        return Err(Unsound::Unfit);
    }
    let accepted = accept(lengths, bins, heads, names, cells)?;
    if !accepted {
        return Err(Unsound::Damaged);
    }
    put_set(lengths, bins, heads, names, cells, out);
    Ok(size as u32)
}
