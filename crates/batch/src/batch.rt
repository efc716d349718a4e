// batch: calls in a slice, made in order after one check, each with its answer's word.
ghost use Rattle.std.specs.Prelude.{◌≡◌, true, ◌-◌, ◌≤◌};
ghost use Rattle.slots.specs.Answers.{given as giving};
ghost use Rattle.index_rules.specs.Index.{lent, length_of};
ghost use Rattle.index_rules.specs.Batch.{batched, all_fit, runs, batches};
ghost use Rattle.index_rules.specs.Checked.{Ready};
ghost use Rattle.batch.specs.Calls.{batch_of};

use crate::calls::{calls_fit, calls_in};
use crate::make::make;
use index::journal::length_of;
use index::sound::sound_index;
use slots::answer::Unsound;

// The first m calls are made in order: as many are accepted as the journal has lines more.
fn run(
    names: &mut [u64],
    cells: &mut [u32],
    head: &mut [u32],
    sizes: &mut [u32],
    lines: &mut [u64],
    calls: &[u64],
    answers: &mut [u64],
    m: usize,
)
    requires ready { Ready (lent names.old cells.old head.old sizes.old lines.old) 0 }
    requires calls_value { all_fit m calls.now ≡ true }
    ensures answers_after { batched (giving (length_of lines.new - length_of lines.old))
        (lent names.new cells.new head.new sizes.new lines.new)
        answers.new
        ≡ runs m (lent names.old cells.old head.old sizes.old lines.old)
        calls.now 0 answers.old 0 }
    ensures lines_in_bounds { length_of lines.old ≤ length_of lines.new }
    ensures lines_bound { length_of lines.new ≤ 1024 }
{
    let mut floor: u32 = 0;
    for k in 0..m {
        floor = make(names, cells, head, sizes, lines, calls, answers, k, floor);
    }
}

// The calls of the slice are made in order after one check, and the word of each answer is written; how many were accepted. A refusal
// writes nothing.
pub fn batch(
    names: &mut [u64],
    cells: &mut [u32],
    head: &mut [u32],
    sizes: &mut [u32],
    lines: &mut [u64],
    calls: &[u64],
    answers: &mut [u64],
) -> Result<u32, Unsound>
    ensures { batched (batch_of result)
        (lent names.new cells.new head.new sizes.new lines.new)
        answers.new
        ≡ batches (lent names.old cells.old head.old sizes.old lines.old)
        calls.now answers.old }
{
    if !calls_fit(calls, answers) {
        return Err(Unsound::Unfit);
    }
    if !sound_index(names, cells, head, sizes, lines)? {
        return Err(Unsound::Damaged);
    }
    let before = length_of(lines);
    let m = calls_in(calls);
    run(names, cells, head, sizes, lines, calls, answers, m);
    let after = length_of(lines);
    Ok((after - before) as u32)
}
