// rollback: the lines above a mark are undone, from the last down, and cleared.
ghost use Rattle.std.specs.Prelude.{◌≡◌, ◌+◌, ◌*◌, ◌≤◌, ◌<◌, length, get_or, OnErr};
ghost use Rattle.slots.specs.Words.{null, fields, most_slots, most_names};
ghost use Rattle.index_rules.specs.Live.{Live, lent_tree};
ghost use Rattle.index_rules.specs.Index.{lent, outcome};
ghost use Rattle.index_rules.specs.Rollback.{rolls};
ghost use Rattle.index_rules.specs.Checked.{unrolled_from, rolls_sound};
ghost use Rattle.index.specs.Rolls.{undo_of, opened, rollback_refusal_of, rolled_of};
ghost use Rattle.index.specs.declared.rollback.RollbackRefusal.TheVariants.{Unfit as RollbackUnfit, Misfit as RollbackMisfit};

use crate::backup::copy_words;
use crate::grow::head_put;
use crate::journal::{cut, length_of};
use crate::lines::{Misfit, unroll};
use crate::sound::{sound_index, taken_as_sound};
use slots::answer::{Answer, Answers, Unfit, refused};
use slots::{COUNT, FIRST, MOST_CELLS, MOST_NAMES, MOST_SLOTS, NULL, ROOT, word};

// Why rollback refuses, with the number of each reason.
// Form kept: each call's enum has Unfit and Damaged again, so that a caller matches one enum with the very reasons of that call.
#[derive(Clone, Copy, PartialEq, Eq)]
pub enum RollbackRefusal {
    Unfit, // 1
    Damaged, // 2
    BadMark, // 7
    Misfit, // 8
}

impl Answers for RollbackRefusal {
    ghost told = { rollback_refusal_of };

    fn answer(self) -> Answer {
        match self {
            RollbackRefusal::Unfit => refused(1),
            RollbackRefusal::Damaged => refused(2),
            RollbackRefusal::BadMark => refused(7),
            RollbackRefusal::Misfit => refused(8),
        }
    }
}

impl From<Unfit> for RollbackRefusal {
    ghost from_gives = { λ _ r. r ≡ RollbackUnfit };

    fn from(_unfit: Unfit) -> RollbackRefusal {
        RollbackRefusal::Unfit
    }
}

impl From<Misfit> for RollbackRefusal {
    ghost from_gives = { λ _ r. r ≡ RollbackMisfit };

    fn from(_misfit: Misfit) -> RollbackRefusal {
        RollbackRefusal::Misfit
    }
}

// What rollback answers where the full check has said yes, before it looks at a line: the tests 1, 7 in turn, else the number of lines to
// undo.
fn ask(
    names: &[u64],
    cells: &[u32],
    head: &[u32],
    sizes: &[u32],
    lines: &[u64],
    mark: u32,
) -> Result<u32, RollbackRefusal>
    ensures { rolled_of result
        ≡ opened (lent names.now cells.now head.now sizes.now lines.now) mark }
{
    if !taken_as_sound(names, cells, head, sizes, lines)? {
        return Err(RollbackRefusal::Damaged);
    }
    let length = length_of(lines);
    if length < mark as u64 {
        return Err(RollbackRefusal::BadMark);
    }
    Ok((length - mark as u64) as u32)
}

// So many lines from m on are undone; or they do not fit, and the tree stays as it was: its words are kept aside meanwhile.
fn undo(
    names: &mut [u64],
    cells: &mut [u32],
    head: &mut [u32],
    sizes: &mut [u32],
    lines: &[u64],
    m: u32,
    count: u32,
) -> Result<(), Misfit>
    requires names_len_bound { length names.old ≤ most_names }
    requires cells_len_bound { length cells.old ≤ fields * most_slots }
    requires head_len { length head.old ≡ 3 }
    requires sizes_len_bound { length sizes.old ≤ most_slots }
    requires count_bound { get_or head.old 2 null + count < null }
    ensures sizes_after { undo_of result (lent_tree names.new cells.new head.new sizes.new)
        ≡ unrolled_from count 0 (lent_tree names.old cells.old head.old sizes.old)
        lines.now m }
    ensures fact { OnErr result (◌≡◌ {A = Live} (lent_tree names.new cells.new head.new sizes.new)
        (lent_tree names.old cells.old head.old sizes.old)) }
{
    if count == 0 {
        return Ok(());
    }
    // Form kept: arrays of the most words, of which the fronts are used, since the library has no heap.
    let mut old_names = [0u64; MOST_NAMES];
    let mut old_cells = [0u32; MOST_CELLS];
    let mut old_sizes = [0u32; MOST_SLOTS];
    copy_words(names, &mut old_names, names.len());
    copy_words(cells, &mut old_cells, cells.len());
    copy_words(sizes, &mut old_sizes, sizes.len());
    let root = word(head, ROOT, NULL);
    let first = word(head, FIRST, NULL);
    let entries = word(head, COUNT, NULL);
    if let Err(misfit) = unroll(names, cells, head, sizes, lines, m, count) {
        let n = names.len();
        let k = cells.len();
        let z = sizes.len();
        copy_words(&old_names, names, n);
        copy_words(&old_cells, cells, k);
        copy_words(&old_sizes, sizes, z);
        head_put(head, root, first, entries);
        return Err(misfit);
    }
    Ok(())
}

// rollback where the full check has said yes.
pub fn rollback_sound(
    names: &mut [u64],
    cells: &mut [u32],
    head: &mut [u32],
    sizes: &mut [u32],
    lines: &mut [u64],
    mark: u32,
) -> Result<u32, RollbackRefusal>
    ensures { outcome (rolled_of result)
        (lent names.new cells.new head.new sizes.new lines.new)
        ≡ rolls_sound (lent names.old cells.old head.old sizes.old lines.old) mark }
{
    let count = ask(names, cells, head, sizes, lines, mark)?;
    undo(names, cells, head, sizes, lines, mark, count)?;
    cut(lines, mark, count);
    Ok(count)
}

// The lines from the last down to the mark are undone and cleared, and the length is the mark. A refusal writes nothing.
pub fn rollback(
    names: &mut [u64],
    cells: &mut [u32],
    head: &mut [u32],
    sizes: &mut [u32],
    lines: &mut [u64],
    mark: u32,
) -> Result<u32, RollbackRefusal>
    ensures { outcome (rolled_of result)
        (lent names.new cells.new head.new sizes.new lines.new)
        ≡ rolls (lent names.old cells.old head.old sizes.old lines.old) mark }
{
    if !sound_index(names, cells, head, sizes, lines)? {
        return Err(RollbackRefusal::Damaged);
    }
    rollback_sound(names, cells, head, sizes, lines, mark)
}
