// All bins moved: every table but the last, from 0 up.
ghost use Rattle.std.specs.Prelude.{◌≡◌, ℕ, ◌+◌, ◌*◌, ◌<◌, ◌≤◌, IfOk, length};
ghost use Rattle.set_rules.specs.Words.{Set, lent_set, length_at};
ghost use Rattle.move_rules.specs.Finishing.{bin_finished, bins_finished, finishing};
ghost use Rattle.mover.specs.Moved.{FitAccepted};
ghost use Rattle.mover.specs.Finished.{finish_of, came_to, AllRefused};

use crate::moving::{MoveRefusal, move_accepted};
use sets::accept::accept;
use sets::fit::length_at;

// The refusal that stopped it, the table and the bin of that move, and the entries moved before.
#[derive(Clone, Copy, PartialEq, Eq)]
pub struct Stop {
    pub refusal: MoveRefusal,
    pub table: usize,
    pub bin: u32,
    pub gone: u32,
}

// A move of bin i of table k: the entries moved, none of a bin that cannot move.
fn finish_bin(
    lengths: &[u32],
    bins: &mut [u32],
    heads: &mut [u32],
    names: &[u64],
    cells: &mut [u32],
    k: u32,
    i: u32,
) -> Result<u32, MoveRefusal>
    requires { FitAccepted (lent_set lengths.now bins.old heads.old names.now cells.old) × (k < length lengths.now) }
    ensures { ((gone : ℕ) → finish_of (came_to gone k i result)
        (lent_set lengths.now bins.new heads.new names.now cells.new)
        ≡ bin_finished
        (finish_of (Ok gone)
        (lent_set lengths.now bins.old heads.old names.now cells.old)) k i)
        × FitAccepted (lent_set lengths.now bins.new heads.new names.now cells.new)
        × IfOk result (λ entries. entries ≤ 8192) }
{
    match move_accepted(lengths, bins, heads, names, cells, k, i) {
        Ok(entries) => Ok(entries),
        // Form kept: tried as two arms of one match, and the proof did not close: the last arm's facts lack that it is not CannotMove.
        Err(refusal) => match refusal {
            MoveRefusal::CannotMove => Ok(0),
            _ => Err(refusal),
        },
    }
}

// All bins of table k, bin 0 first, after so many entries: the entries moved in all.
fn finish_bins(
    lengths: &[u32],
    bins: &mut [u32],
    heads: &mut [u32],
    names: &[u64],
    cells: &mut [u32],
    k: u32,
    before: u32,
) -> Result<u32, Stop>
    requires { FitAccepted (lent_set lengths.now bins.old heads.old names.now cells.old) × (k < length lengths.now)
        × (before ≤ 33554432 * k) }
    ensures { (finish_of result
        (lent_set lengths.now bins.new heads.new names.now cells.new)
        ≡ bins_finished
        (length_at (lent_set lengths.now bins.old heads.old names.now cells.old) k)
        (finish_of (Ok before)
        (lent_set lengths.now bins.old heads.old names.now cells.old)) k)
        × FitAccepted (lent_set lengths.now bins.new heads.new names.now cells.new)
        × IfOk result (λ gone. gone ≤ 33554432 * k + 33554432) }
{
    let length = length_at(lengths, k);
    let mut gone = before;
    for i in 0..length {
        match finish_bin(lengths, bins, heads, names, cells, k, i) {
            Ok(entries) => gone += entries,
            Err(refusal) => {
                return Err(Stop {
                    refusal,
                    table: k as usize,
                    bin: i,
                    gone,
                });
            },
        }
    }
    Ok(gone)
}

// All tables but the last, table 0 first.
fn finish_tables(
    lengths: &[u32],
    bins: &mut [u32],
    heads: &mut [u32],
    names: &[u64],
    cells: &mut [u32],
) -> Result<u32, Stop>
    requires { FitAccepted (lent_set lengths.now bins.old heads.old names.now cells.old) }
    ensures { finish_of result
        (lent_set lengths.now bins.new heads.new names.now cells.new)
        ≡ finishing
        (lent_set lengths.now bins.old heads.old names.now cells.old) }
{
    let mut gone = 0;
    for k in 0..(lengths.len() - 1) as u32 {
        gone = finish_bins(lengths, bins, heads, names, cells, k, gone)?;
    }
    Ok(gone)
}

// Where every move is refused alike: the first bin that there is stops it, and nothing does where there is none.
fn stop_first(lengths: &[u32], refusal: MoveRefusal) -> Result<u32, Stop>
    ensures { (s : Set) → s.lengths ≡ lengths.now → AllRefused s refusal → finish_of result s ≡ finishing s }
{
    for table in 0..lengths.len().saturating_sub(1) {
        if lengths[table] != 0 {
            return Err(Stop {
                refusal,
                table,
                bin: 0,
                gone: 0,
            });
        }
    }
    Ok(0)
}

// Moves every bin of every table but the last, and answers the entries moved: whether the set fits and is accepted is asked once, since
// each move leaves it so.
pub fn finish(
    lengths: &[u32],
    bins: &mut [u32],
    heads: &mut [u32],
    names: &[u64],
    cells: &mut [u32],
) -> Result<u32, Stop>
    ensures { finish_of result
        (lent_set lengths.now bins.new heads.new names.now cells.new)
        ≡ finishing
        (lent_set lengths.now bins.old heads.old names.now cells.old) }
{
    match accept(lengths, bins, heads, names, cells) {
        Ok(true) => finish_tables(lengths, bins, heads, names, cells),
        Ok(false) => stop_first(lengths, MoveRefusal::Damaged),
        Err(_unfit) => stop_first(lengths, MoveRefusal::Unfit),
    }
}
