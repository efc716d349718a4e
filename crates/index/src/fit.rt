// Whether lent slices are a live tree's, their lengths and a capacity of 1 to 4,096 slots, and whether they have a fit journal beside it.
ghost use Rattle.std.specs.Prelude.{◌≡◌};
ghost use Rattle.index_rules.specs.Live.{fits, fits_unsized, lent_tree, unsized};
ghost use Rattle.index_rules.specs.Index.{fits_index, lent};

use crate::journal::fit_journal;
use slots::MOST_SLOTS;

// Whether the three slices are a live tree's without its sizes: their lengths agree, and the capacity is 1 to 4,096.
#[tactic(auto, unfolding(index_rules::specs::Live::fits_unsized))]
pub fn fit_unsized(names: &[u64], cells: &[u32], head: &[u32]) -> bool
    ensures { result ≡ fits_unsized (unsized names.now cells.now head.now) }
{
    let n = names.len() / 2;
    1 <= n && n <= MOST_SLOTS && names.len() == 2 * n && cells.len() == 7 * n && head.len() == 3
}

// Whether the four slices are a live tree's: the first three are, and there is a size to a slot.
#[tactic(auto, unfolding(index_rules::specs::Live::fits))]
pub fn fit(names: &[u64], cells: &[u32], head: &[u32], sizes: &[u32]) -> bool
    ensures { result ≡ fits (lent_tree names.now cells.now head.now sizes.now) }
{
    fit_unsized(names, cells, head) && sizes.len() == names.len() / 2
}

// Whether the five slices are a live tree's with its journal.
#[tactic(auto, unfolding(index_rules::specs::Index::fits_index))]
pub(crate) fn fit_index(
    names: &[u64],
    cells: &[u32],
    head: &[u32],
    sizes: &[u32],
    lines: &[u64],
) -> bool
    ensures { result
        ≡ fits_index (lent names.now cells.now head.now sizes.now lines.now) }
{
    fit(names, cells, head, sizes) && fit_journal(lines)
}
