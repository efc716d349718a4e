// A bin's check and the check of the two bins below it, which ask each other, the tables left falling.
ghost use Rattle.std.specs.Prelude.{◌≡◌, []};
ghost use Rattle.set_rules.specs.Words.{lent_set};
ghost use Rattle.set_rules.specs.Accepting.{own_fine, bin_fine, below_fine};
ghost use Rattle.set_rules.specs.Accepting.{may_stand, is_moved as opens};
ghost use Rattle.tree.specs.Rules.{rest_of};
ghost use Rattle.sets.specs.Bins.{bin_as};
ghost use Rattle.sets.specs.Room.{Room};

use crate::bin::{Bin, bin_from, header};
use crate::fit::length_at;
use crate::long::list_fine;
use crate::trees::tree_fine;
use slots::{COUNT, FIRST, ROOT};

// A bin may stand where it does: it is not bad, it is empty unless it may hold something, and a Moved one has tables after its own.
#[tactic(auto, unfolding(set_rules::specs::Accepting::may_stand))]
fn may_stand(bin: Bin, may: bool, left: u32) -> bool
    ensures { result ≡ may_stand (bin_as bin) may left }
{
    match bin {
        Bin::Empty => true,
        Bin::Moved => left != 0 && may,
        Bin::List(_) | Bin::Tree(_) => may,
        Bin::Bad => false,
    }
}

fn is_moved(bin: Bin) -> bool
    ensures { result ≡ opens (bin_as bin) }
{
    matches!(bin, Bin::Moved)
}

// The visits left after the list or tree of bin i of a table of so many bins, or that it goes wrong.
fn own_fine(
    heads: &[u32],
    names: &[u64],
    cells: &[u32],
    length: u32,
    i: u32,
    bin: Bin,
    visits: usize,
) -> Option<usize>
    ensures { rest_of result
        ≡ own_fine (lent_set [] [] heads.now names.now cells.now) length i (bin_as bin) visits }
{
    match bin {
        Bin::List(a) => list_fine(names, cells, length, i, a, visits),
        Bin::Tree(h) => {
            let root = header(heads, h, ROOT);
            let first = header(heads, h, FIRST);
            let count = header(heads, h, COUNT);
            tree_fine(names, cells, length, i, root, first, count, visits)
        }
        Bin::Empty | Bin::Moved | Bin::Bad => Some(visits),
    }
}

// The check of bin i of table k, whose bins begin at `from`, where so many tables come after that one: the visits left after it and what
// is below it. A bin whose parent is not Moved may not hold anything.
#[cycle(bin_fine_two_below)]
pub(crate) fn bin_fine(
    lengths: &[u32],
    bins: &[u32],
    heads: &[u32],
    names: &[u64],
    cells: &[u32],
    left: u32,
    k: u32,
    from: usize,
    i: u32,
    may: bool,
    visits: usize,
) -> Option<usize>
    requires { Room lengths.now left k from i }
    ensures { rest_of result
        ≡ bin_fine left (lent_set lengths.now bins.now heads.now names.now
        cells.now) k i may visits }
{
    let bin = bin_from(bins, names.len() / 2, heads.len() / 3, from, i);
    let stands = may_stand(bin, may, left);
    if !stands {
        return None;
    }
    let length = length_at(lengths, k);
    let rest = own_fine(heads, names, cells, length, i, bin, visits)?;
    let opened = is_moved(bin);
    two_below(
        lengths, bins, heads, names, cells, left, k, from, i, opened, rest,
    )
}

// The check of the two bins below bin i of table k: the same index, and that plus the upper length.
#[cycle(bin_fine_two_below)]
fn two_below(
    lengths: &[u32],
    bins: &[u32],
    heads: &[u32],
    names: &[u64],
    cells: &[u32],
    left: u32,
    k: u32,
    from: usize,
    i: u32,
    may: bool,
    visits: usize,
) -> Option<usize>
    requires { Room lengths.now left k from i }
    ensures { rest_of result
        ≡ below_fine left (lent_set lengths.now bins.now heads.now names.now
        cells.now) k i may visits }
{
    if left == 0 {
        return Some(visits);
    }
    let length = length_at(lengths, k);
    let next = from + length as usize;
    let rest = bin_fine(
        lengths,
        bins,
        heads,
        names,
        cells,
        left - 1,
        k + 1,
        next,
        i,
        may,
        visits,
    )?;
    bin_fine(
        lengths,
        bins,
        heads,
        names,
        cells,
        left - 1,
        k + 1,
        next,
        i + length,
        may,
        rest,
    )
}
