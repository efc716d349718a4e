// fresh: an empty index is written into slices of fit lengths, whatever their words are.
ghost use Rattle.std.specs.Prelude.{◌≡◌};
ghost use Rattle.index_rules.specs.Live.{lent_tree};
ghost use Rattle.index_rules.specs.Index.{outcome, lent};
ghost use Rattle.index_rules.specs.Fresh.{fits_lengths, bared, freshes};
ghost use Rattle.index.specs.Fresh.{fresh_of};

use crate::fit::fit;
use crate::grow::{head_put, put_pair};
use crate::journal::{capacity_of, cut, is_whole};
use crate::shrink::wipe;
use slots::answer::Unfit;
use slots::{NULL, put_word};

// Whether the slices are as long as an index's.
#[tactic(auto, unfolding(index_rules::specs::Fresh::fits_lengths))]
fn fit_lengths(names: &[u64], cells: &[u32], head: &[u32], sizes: &[u32], lines: &[u64]) -> bool
    ensures { result
        ≡ fits_lengths (lent names.now cells.now head.now sizes.now lines.now) }
{
    fit(names, cells, head, sizes) && is_whole(lines)
}

// The first n slots are cleared, their names and sizes too, from the last down.
fn bare(names: &mut [u64], cells: &mut [u32], head: &[u32], sizes: &mut [u32], n: u32)
    ensures { lent_tree names.new cells.new head.now sizes.new
        ≡ bared n (lent_tree names.old cells.old head.now sizes.old) }
{
    for k in (0..n).rev() {
        put_pair(names, k, 0, 0);
        wipe(cells, k);
        put_word(sizes, k as usize, 0);
    }
}

// An empty index: every slot cleared, a header of nothing, every word of the journal 0. Unfit, and nothing written, where the lengths are
// not an index's.
#[tactic(auto, unfolding(index_rules::specs::Fresh::freshes))]
pub fn fresh(
    names: &mut [u64],
    cells: &mut [u32],
    head: &mut [u32],
    sizes: &mut [u32],
    lines: &mut [u64],
) -> Result<(), Unfit>
    ensures { outcome (fresh_of result)
        (lent names.new cells.new head.new sizes.new lines.new)
        ≡ freshes (lent names.old cells.old head.old sizes.old lines.old) }
{
    if !fit_lengths(names, cells, head, sizes, lines) {
        return Err(Unfit);
    }
    let n = names.len() / 2;
    let capacity = capacity_of(lines);
    bare(names, cells, head, sizes, n as u32);
    head_put(head, NULL, NULL, 0);
    cut(lines, 0, capacity as u32);
    Ok(())
}
