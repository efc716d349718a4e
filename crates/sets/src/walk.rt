// The walk: a cursor goes in by value and the new one comes back.
ghost use Rattle.std.specs.Prelude.{◌≡◌, []};
ghost use Rattle.slots.specs.Coded.{done};
ghost use Rattle.set_rules.specs.Words.{Set, lent_set};
ghost use Rattle.set_rules.specs.Cursor.{blank_cursor, starts};
ghost use Rattle.set_rules.specs.Walk.{walk_point, InTables, turns_in, sought, standing, steps_on, nexts};
ghost use Rattle.sets.specs.declared.walk.NextRefusal.TheVariants.{Lost as LostOnTheWay};
ghost use Rattle.sets.specs.Cursors.{sought_of, cursor_of, start_of, next_refusal_of, walked_of, step_of};

use crate::bin::{Bin, bin_from, header};
use crate::cursor::{advance, fine, index_at, set_index, trim};
use crate::fit::{fit_set, length_at};
use crate::lookup::NoTable;
use slots::answer::{Answer, Answers, given, refused};
use slots::{FIRST, NEXT, NULL, get};

// A word that was read leads nowhere.
#[derive(Clone, Copy)]
struct Lost;

// The source's loop over the bins, from the point at this depth with these indexes: an entry, with the depth of the point after it, whose
// indexes they become; or none, at the end.
fn seek(
    lengths: &[u32],
    bins: &[u32],
    heads: &[u32],
    names: &[u64],
    base: u32,
    depth: u32,
    indexes: &mut [u32; 8],
) -> Result<Option<(u32, u32)>, Lost>
    requires { InTables lengths.now base (walk_point depth indexes.old) }
    ensures { sought_of result indexes.new
        ≡ (let s : Set = lent_set lengths.now bins.now heads.now names.now [] in sought
        (turns_in s base) s base (walk_point depth indexes.old)) }
{
    let n = names.len() / 2;
    let h = heads.len() / 3;
    let first = length_at(lengths, 0);
    let mut d = depth;
    loop {
        let i = index_at(indexes, d);
        let length = length_at(lengths, base + d);
        if length <= i {
            break Ok(None);
        }
        // A table has as many bins as those before it and the first again, so its own begin at the difference.
        let from = (length - first) as usize;
        let bin = bin_from(bins, n, h, from, i);
        match bin {
            Bin::Empty => {
                d = advance(lengths, base, d, indexes);
            }
            Bin::Moved => {
                if lengths.len() <= (base + d) as usize + 1 {
                    break Err(Lost);
                }
                d += 1;
                set_index(indexes, d, i);
            }
            Bin::List(slot) => {
                let after = advance(lengths, base, d, indexes);
                break Ok(Some((slot, after)));
            }
            Bin::Tree(at) => {
                let first = header(heads, at, FIRST);
                if n <= first as usize {
                    break Err(Lost);
                }
                let after = advance(lengths, base, d, indexes);
                break Ok(Some((first, after)));
            }
            Bin::Bad => break Err(Lost),
        }
    }
}

// Where a walk stands: the base table, the depth, the index at each level from the base down to it, and the slot last given.
// Form kept: eight words and a depth, since a cursor is eleven words of the C interface (cursor_in).
#[derive(Clone, Copy)]
pub struct Cursor {
    pub base: u32,
    pub depth: u32,
    pub indexes: [u32; 8],
    pub last: u32,
}

// A walk that begins: 1.
impl Answers for Cursor {
    ghost told = { done };

    fn answer(self) -> Answer {
        given(1)
    }
}

// Why next gives no step.
#[derive(Clone, Copy, PartialEq, Eq)]
pub enum NextRefusal {
    Unfit, // 1
    BadCursor, // 11
    Lost, // 9
}

impl Answers for NextRefusal {
    ghost told = { next_refusal_of };

    fn answer(self) -> Answer {
        match self {
            NextRefusal::Unfit => refused(1),
            NextRefusal::BadCursor => refused(11),
            NextRefusal::Lost => refused(9),
        }
    }
}

impl From<Lost> for NextRefusal {
    ghost from_gives = { λ _ r. r ≡ LostOnTheWay };

    fn from(_lost: Lost) -> NextRefusal {
        NextRefusal::Lost
    }
}

// The entry that next gives, none at the end, and the cursor after; the same where it is refused.
#[derive(Clone, Copy)]
pub struct Step {
    pub answer: Result<Option<u32>, NextRefusal>,
    pub cursor: Cursor,
}

// A step from a cursor whose numbers are fine: the last slot's next, if any, comes first.
fn walk(
    cursor: Cursor,
    lengths: &[u32],
    bins: &[u32],
    heads: &[u32],
    names: &[u64],
    cells: &[u32],
) -> Result<(Option<u32>, Cursor), NextRefusal>
    requires { InTables lengths.now cursor.base (standing (cursor_of cursor)) }
    ensures { walked_of (cursor_of cursor) result
        ≡ steps_on (lent_set lengths.now bins.now heads.now names.now cells.now)
        (cursor_of cursor) }
{
    let base = cursor.base;
    let depth = cursor.depth;
    let whole = cursor.indexes;
    let link = get(cells, cursor.last, NEXT);
    if link != NULL {
        if names.len() / 2 <= link as usize {
            return Err(NextRefusal::Lost);
        }
        let kept = trim(&whole, depth);
        let on = Cursor {
            base,
            depth,
            indexes: kept,
            last: link,
        };
        return Ok((Some(link), on));
    }
    let mut indexes = trim(&whole, depth);
    let sought = seek(lengths, bins, heads, names, base, depth, &mut indexes)?;
    match sought {
        Some((slot, after)) => {
            let on = Cursor {
                base,
                depth: after,
                indexes,
                last: slot,
            };
            Ok((Some(slot), on))
        }
        None => {
            let length = length_at(lengths, base);
            let end = [length, 0, 0, 0, 0, 0, 0, 0];
            let done = Cursor {
                base,
                depth: 0,
                indexes: end,
                last: NULL,
            };
            Ok((None, done))
        }
    }
}

impl Cursor {
    // All zero: what comes with a walk that does not begin.
    pub fn blank() -> Cursor
        ensures { cursor_of result ≡ blank_cursor }
    {
        Cursor {
            base: 0,
            depth: 0,
            indexes: [0, 0, 0, 0, 0, 0, 0, 0],
            last: 0,
        }
    }
    // A walk from the first bin of a table.
    pub fn start(
        lengths: &[u32],
        bins: &[u32],
        heads: &[u32],
        names: &[u64],
        cells: &[u32],
        table: u32,
    ) -> Result<Cursor, NoTable>
        ensures { start_of result
            ≡ starts (lent_set lengths.now bins.now heads.now names.now
            cells.now) table }
    {
        let fits = fit_set(lengths, bins, heads, names, cells);
        if !fits {
            return Err(NoTable::Unfit);
        }
        if lengths.len() <= table as usize {
            return Err(NoTable::Unknown);
        }
        Ok(Cursor {
            base: table,
            depth: 0,
            indexes: [0, 0, 0, 0, 0, 0, 0, 0],
            last: NULL,
        })
    }
    // A step of the walk: the next entry, or none, and the cursor after.
    fn step(
        self,
        lengths: &[u32],
        bins: &[u32],
        heads: &[u32],
        names: &[u64],
        cells: &[u32],
    ) -> Result<(Option<u32>, Cursor), NextRefusal>
        ensures { walked_of (cursor_of self) result
            ≡ nexts (lent_set lengths.now bins.now heads.now names.now cells.now)
            (cursor_of self) }
    {
        let fits = fit_set(lengths, bins, heads, names, cells);
        if !fits {
            return Err(NextRefusal::Unfit);
        }
        let indexes = self.indexes;
        let right = fine(
            lengths,
            names.len() / 2,
            self.base,
            self.depth,
            &indexes,
            self.last,
        );
        if !right {
            return Err(NextRefusal::BadCursor);
        }
        walk(self, lengths, bins, heads, names, cells)
    }
    // The next entry, or none at the end.
    pub fn next(
        self,
        lengths: &[u32],
        bins: &[u32],
        heads: &[u32],
        names: &[u64],
        cells: &[u32],
    ) -> Step
        ensures { step_of result
            ≡ nexts (lent_set lengths.now bins.now heads.now names.now cells.now)
            (cursor_of self) }
    {
        let step = self.step(lengths, bins, heads, names, cells);
        match step {
            Ok((entry, cursor)) => Step {
                answer: Ok(entry),
                cursor,
            },
            Err(refusal) => Step {
                answer: Err(refusal),
                cursor: self,
            },
        }
    }
}
