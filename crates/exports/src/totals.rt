// The tally of a set: whether it was counted as accepted or as refused in the answer's word, and the totals.
ghost use Rattle.std.specs.Prelude.{◌≡◌};
ghost use Rattle.set_rules.specs.Words.{lent_set};
ghost use Rattle.figure_rules.specs.Tally.{tallies};
ghost use Rattle.word_rules.specs.Words.{TallyWorded, tally_worded};

use slots::answer::{Answers, answer_word};
use tally::tally::tally;

// 1 where the set is counted as accepted, 0 where as refused; a refused call leaves the totals as they were.
#[unsafe(no_mangle)]
pub extern "C" fn oz_tally(
    lengths: &[u32],
    bins: &[u32],
    heads: &[u32],
    names: &[u64],
    cells: &[u32],
    totals: &mut [u64],
) -> u64
    ensures { record { word = result; totals = totals.new }
        ≡ tally_worded
        (tallies (lent_set lengths.now bins.now heads.now names.now cells.now)
        totals.old) }
{
    let counted = tally(lengths, bins, heads, names, cells, totals);
    answer_word(counted.answer())
}
