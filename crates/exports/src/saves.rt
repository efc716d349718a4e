// What can be saved of a damaged tree: the slots kept in the answer's word, the second tree, and a word of the report for each slot.
ghost use Rattle.std.specs.Prelude.{◌≡◌};
ghost use Rattle.index_rules.specs.Live.{lent_tree};
ghost use Rattle.night_rules.specs.Salvage.{salvages};
ghost use Rattle.word_rules.specs.Words.{SalvageWorded, salvage_worded};

use night::salvage::salvage;
use slots::answer::{Answers, answer_word};

// How many slots of the first tree are kept: each is inserted into the second, and the report says what became of each slot; a refused
// call writes nothing.
#[unsafe(no_mangle)]
pub extern "C" fn oz_salvage(
    names: &[u64],
    cells: &[u32],
    names2: &mut [u64],
    cells2: &mut [u32],
    head2: &mut [u32],
    sizes2: &mut [u32],
    report: &mut [u32],
) -> u64
    ensures { record {
      word = result;
      into = lent_tree names2.new cells2.new head2.new sizes2.new;
      report = report.new;
    }
        ≡ salvage_worded
        (salvages names.now cells.now
        (lent_tree names2.old cells2.old head2.old sizes2.old) report.old) }
{
    let made = salvage(names, cells, names2, cells2, head2, sizes2, report);
    answer_word(made.answer())
}
