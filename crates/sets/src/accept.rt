// Whether a frozen set is accepted: the table's check asks its bins.
ghost use Rattle.std.specs.Prelude.{◌≡◌, true, get_or};
ghost use Rattle.set_rules.specs.Words.{fits, lent_set};
ghost use Rattle.set_rules.specs.Accepting.{table_fine, all_held, accepts};
ghost use Rattle.set_rules.specs.Accepting.{accepted as isAccepted};
ghost use Rattle.tree.specs.Rules.{rest_of};
ghost use Rattle.sets.specs.Verdicts.{accept_of};

use crate::below::bin_fine;
use crate::fit::{fit_set, length_at};
use crate::headers::headers_fine;
use index::sound::{slots_fine, used_slots};
use slots::answer::Unfit;

// The check of table 0: the visits left after all its bins and what is below them, or that one goes wrong.
fn table_fine(
    lengths: &[u32],
    bins: &[u32],
    heads: &[u32],
    names: &[u64],
    cells: &[u32],
    visits: usize,
) -> Option<usize>
    requires { fits (lent_set lengths.now bins.now heads.now names.now cells.now) ≡ true }
    ensures { rest_of result
        ≡ table_fine (get_or lengths.now 0 0)
        (lent_set lengths.now bins.now heads.now names.now cells.now) visits }
{
    let left = lengths.len() as u32 - 1;
    let mut rest = visits;
    for i in (0..length_at(lengths, 0)).rev() {
        rest = bin_fine(
            lengths, bins, heads, names, cells, left, 0, 0, i, true, rest,
        )?;
    }
    Some(rest)
}

// The bins hold as many slots as are not free.
fn all_held(lengths: &[u32], bins: &[u32], heads: &[u32], names: &[u64], cells: &[u32]) -> bool
    requires { fits (lent_set lengths.now bins.now heads.now names.now cells.now) ≡ true }
    ensures { result
        ≡ all_held (lent_set lengths.now bins.now heads.now names.now cells.now) }
{
    let n = names.len() / 2;
    let walk = table_fine(lengths, bins, heads, names, cells, n);
    let Some(rest) = walk else {
        return false;
    };
    let used = used_slots(cells, n as u32);
    n - rest == used as usize
}

// The whole check, on fit words.
fn is_accepted(lengths: &[u32], bins: &[u32], heads: &[u32], names: &[u64], cells: &[u32]) -> bool
    requires { fits (lent_set lengths.now bins.now heads.now names.now cells.now) ≡ true }
    ensures { result
        ≡ isAccepted (lent_set lengths.now bins.now heads.now names.now cells.now) }
{
    let n = names.len() / 2;
    let h = heads.len() / 3;
    slots_fine(names, cells, n as u32)
        && headers_fine(heads, bins, n, h as u32)
        && all_held(lengths, bins, heads, names, cells)
}

// Whether the set is accepted. Unfit where the slices are not a frozen set's.
pub fn accept(
    lengths: &[u32],
    bins: &[u32],
    heads: &[u32],
    names: &[u64],
    cells: &[u32],
) -> Result<bool, Unfit>
    ensures { accept_of result
        ≡ accepts (lent_set lengths.now bins.now heads.now names.now cells.now) }
{
    let fit = fit_set(lengths, bins, heads, names, cells);
    if !fit {
        return Err(Unfit);
    }
    Ok(is_accepted(lengths, bins, heads, names, cells))
}
