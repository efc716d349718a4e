// A move of one bin to the next table.
ghost use Rattle.std.specs.Prelude.{◌≡◌, ◌≢◌, true, ℕ, ◌+◌, ◌/◌, ◌<◌, IfSome, length, get_or, eqb};
ghost use Rattle.slots.specs.Words.{null};
ghost use Rattle.set_rules.specs.Words.{lent_set, fits, bins_before};
ghost use Rattle.move_rules.specs.Moving.{parent_moved, move_outcome, moves_bin, moves};
ghost use Rattle.move_rules.specs.Moving.{movable as mayMove};
ghost use Rattle.mover.specs.Moved.{move_of, move_refusal_of, header_of_half, header_after, halves_laid, FitAccepted};
ghost use Rattle.mover.specs.declared.moving.MoveRefusal.TheVariants.{Unfit as OnlyUnfit};

use crate::halves::{half_count, half_first, header_of};
use crate::headers::header_for;
use crate::laying::{lay, take_bin};
use sets::accept::accept;
use sets::bin::{MOVED, bin_word};
use sets::fit::{fit_set, length_at};
use slots::answer::{Answer, Answers, Unfit, refused};

// What refuses a move.
#[derive(Clone, Copy, PartialEq, Eq)]
pub enum MoveRefusal {
    Unfit, // 1
    Unknown, // 10
    Damaged, // 2
    CannotMove, // 16
    Full, // 5
}

impl Answers for MoveRefusal {
    ghost told = { move_refusal_of };

    fn answer(self) -> Answer {
        match self {
            MoveRefusal::Unfit => refused(1),
            MoveRefusal::Unknown => refused(10),
            MoveRefusal::Damaged => refused(2),
            MoveRefusal::CannotMove => refused(16),
            MoveRefusal::Full => refused(5),
        }
    }
}

impl From<Unfit> for MoveRefusal {
    ghost from_gives = { λ _ r. r ≡ OnlyUnfit };

    fn from(_unfit: Unfit) -> MoveRefusal {
        MoveRefusal::Unfit
    }
}

// Whether the word of bin i of table k is Moved.
fn says_moved(lengths: &[u32], bins: &[u32], k: u32, i: u32) -> bool
    ensures { result ≡ eqb (get_or bins.now (bins_before lengths.now k + i) 0) 1 }
{
    bin_word(lengths, bins, k, i) == MOVED
}

// Whether the parent of bin i of table k is Moved; a bin of table 0 has none.
fn parent_moved(
    lengths: &[u32],
    bins: &[u32],
    heads: &[u32],
    names: &[u64],
    cells: &[u32],
    k: u32,
    i: u32,
) -> bool
    requires { (fits (lent_set lengths.now bins.now heads.now names.now cells.now) ≡ true) × (k < length lengths.now) }
    ensures { result
        ≡ parent_moved
        (lent_set lengths.now bins.now heads.now names.now cells.now) k i }
{
    if k == 0 {
        return true;
    }
    let length = length_at(lengths, k - 1);
    says_moved(lengths, bins, k - 1, i % length)
}

// Whether bin i of table k may be moved: there is a next table and such a bin, it is not Moved, and its parent is.
fn movable(
    lengths: &[u32],
    bins: &[u32],
    heads: &[u32],
    names: &[u64],
    cells: &[u32],
    k: u32,
    i: u32,
) -> bool
    requires { (fits (lent_set lengths.now bins.now heads.now names.now cells.now) ≡ true) × (k < length lengths.now) }
    ensures { result
        ≡ mayMove
        (lent_set lengths.now bins.now heads.now names.now cells.now) k i }
{
    if lengths.len() <= k as usize + 1 {
        return false;
    }
    let length = length_at(lengths, k);
    if length <= i {
        return false;
    }
    if says_moved(lengths, bins, k, i) {
        return false;
    }
    parent_moved(lengths, bins, heads, names, cells, k, i)
}

// The header that the high half may have first: the one after the low half's, if that is a tree's.
fn after_low(low: Option<u32>) -> u32
    requires { IfSome low (λ h. h ≢ null) }
    ensures { result ≡ header_after low }
{
    match low {
        Some(h) => h + 1,
        None => 0,
    }
}

// The bin is taken out of its table, and its halves, so many each, are laid below: the low half under header g, the high half, which goes
// to bin j, under h.
fn lay_halves(
    lengths: &[u32],
    bins: &mut [u32],
    heads: &mut [u32],
    names: &[u64],
    cells: &mut [u32],
    k: u32,
    i: u32,
    j: u32,
    g: Option<u32>,
    h: Option<u32>,
    low: u32,
    high: u32,
    n: u32,
)
    requires { (n ≡ length names.now / 2) × (k < 8) }
    ensures { (under over : ℕ) → g ≡ header_of_half low under → h ≡ header_of_half high over
        → lent_set lengths.now bins.new heads.new names.now cells.new
        ≡ halves_laid
        (lent_set lengths.now bins.old heads.old names.now cells.old) k i j
        under over low high }
{
    let below = k + 1;
    let a = half_first(lengths, bins, heads, names, cells, k, i, i, n);
    let b = half_first(lengths, bins, heads, names, cells, k, i, j, n);
    take_bin(lengths, bins, heads, names, cells, k, i, n);
    lay(lengths, bins, heads, names, cells, below, i, g, a, low, n);
    lay(lengths, bins, heads, names, cells, below, j, h, b, high, n);
}

// The move of a bin that may be moved.
fn move_entries(
    lengths: &[u32],
    bins: &mut [u32],
    heads: &mut [u32],
    names: &[u64],
    cells: &mut [u32],
    k: u32,
    i: u32,
) -> Result<u32, MoveRefusal>
    requires { (fits (lent_set lengths.now bins.old heads.old names.now cells.old) ≡ true)
        × (mayMove (lent_set lengths.now bins.old heads.old names.now cells.old) k i ≡ true) }
    ensures { move_outcome (move_of result)
        (lent_set lengths.now bins.new heads.new names.now cells.new)
        ≡ moves_bin
        (lent_set lengths.now bins.old heads.old names.now cells.old) k i }
{
    let n = (names.len() / 2) as u32;
    let headers = (heads.len() / 3) as u32;
    let length = length_at(lengths, k);
    let j = i + length;
    let low = half_count(lengths, bins, heads, names, cells, k, i, i, n);
    let high = half_count(lengths, bins, heads, names, cells, k, i, j, n);
    let own = header_of(lengths, bins, heads, n, k, i);
    let g = header_for(heads, own, 0, headers, low)?;
    let h = header_for(heads, own, after_low(g), headers, high)?;
    lay_halves(
        lengths, bins, heads, names, cells, k, i, j, g, h, low, high, n,
    );
    Ok(low + high)
}

// A move of a bin of a set that fits and is accepted.
pub(crate) fn move_accepted(
    lengths: &[u32],
    bins: &mut [u32],
    heads: &mut [u32],
    names: &[u64],
    cells: &mut [u32],
    table: u32,
    bin: u32,
) -> Result<u32, MoveRefusal>
    requires { FitAccepted (lent_set lengths.now bins.old heads.old names.now cells.old) × (table < length lengths.now) }
    ensures { move_outcome (move_of result)
        (lent_set lengths.now bins.new heads.new names.now cells.new)
        ≡ moves
        (lent_set lengths.now bins.old heads.old names.now cells.old) table bin }
{
    if !movable(lengths, bins, heads, names, cells, table, bin) {
        return Err(MoveRefusal::CannotMove);
    }
    move_entries(lengths, bins, heads, names, cells, table, bin)
}

// Moves one bin of a table to the next table.
pub fn move_bin(
    lengths: &[u32],
    bins: &mut [u32],
    heads: &mut [u32],
    names: &[u64],
    cells: &mut [u32],
    table: u32,
    bin: u32,
) -> Result<u32, MoveRefusal>
    ensures { move_outcome (move_of result)
        (lent_set lengths.now bins.new heads.new names.now cells.new)
        ≡ moves
        (lent_set lengths.now bins.old heads.old names.now cells.old) table bin }
{
    let fit = fit_set(lengths, bins, heads, names, cells);
    if !fit {
        return Err(MoveRefusal::Unfit);
    }
    if lengths.len() <= table as usize {
        return Err(MoveRefusal::Unknown);
    }
    let accepted = accept(lengths, bins, heads, names, cells)?;
    if !accepted {
        return Err(MoveRefusal::Damaged);
    }
    move_accepted(lengths, bins, heads, names, cells, table, bin)
}
