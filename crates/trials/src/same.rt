// Whether two slices, or two indexes, have the same words.
ghost use Rattle.std.specs.Prelude.{◌≡◌};
ghost use Rattle.index_rules.specs.Index.{lent};
ghost use Rattle.trials.specs.Comparing.{same_words, same_index};

// The names of two trees, or two journals.
pub fn same_names(a: &[u64], b: &[u64]) -> bool
    ensures { result ≡ same_words a.now b.now }
{
    a == b
}

// An index, and what it was.
pub fn same_index(
    names: &[u64],
    cells: &[u32],
    head: &[u32],
    sizes: &[u32],
    lines: &[u64],
    oldnames: &[u64],
    oldcells: &[u32],
    oldhead: &[u32],
    oldsizes: &[u32],
    oldlines: &[u64],
) -> bool
    ensures { result
        ≡ same_index (lent names.now cells.now head.now sizes.now lines.now)
        (lent oldnames.now oldcells.now oldhead.now oldsizes.now oldlines.now) }
{
    names == oldnames
        && cells == oldcells
        && head == oldhead
        && sizes == oldsizes
        && lines == oldlines
}
