// A move of one bin to the next table: the entries moved in the answer's word, and what is left of the set.
ghost use Rattle.std.specs.Prelude.{◌≡◌};
ghost use Rattle.set_rules.specs.Words.{lent_set};
ghost use Rattle.move_rules.specs.Moving.{moves};
ghost use Rattle.word_rules.specs.Words.{MoveWorded, move_worded};

use mover::moving::move_bin;
use slots::answer::{Answers, answer_word};

// How many entries of a bin of a table went to the two bins below it; a refused call writes nothing.
#[unsafe(no_mangle)]
pub extern "C" fn oz_move(
    lengths: &[u32],
    bins: &mut [u32],
    heads: &mut [u32],
    names: &[u64],
    cells: &mut [u32],
    table: u32,
    bin: u32,
) -> u64
    ensures { record {
      word = result;
      left = lent_set lengths.now bins.new heads.new names.now cells.new;
    }
        ≡ move_worded
        (moves (lent_set lengths.now bins.old heads.old names.now cells.old)
        table bin) }
{
    let moved = move_bin(lengths, bins, heads, names, cells, table, bin);
    answer_word(moved.answer())
}
