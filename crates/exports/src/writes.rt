// The live tree's entry points that write. A refusal writes nothing.
ghost use Rattle.std.specs.Prelude.{◌≡◌};
ghost use Rattle.index_rules.specs.Index.{lent};
ghost use Rattle.index_rules.specs.Batch.{batches};
ghost use Rattle.index_rules.specs.Fresh.{freshes};
ghost use Rattle.index_rules.specs.Insert.{inserts};
ghost use Rattle.index_rules.specs.Remove.{removes};
ghost use Rattle.index_rules.specs.Replace.{replaces};
ghost use Rattle.index_rules.specs.Rollback.{rolls};
ghost use Rattle.word_rules.specs.Words.{Worded, worded, BatchWorded, batch_worded};

use batch::batch::batch;
use index::fresh::fresh;
use index::insert::insert;
use index::remove::remove;
use index::replace::replace;
use index::rollback::rollback;
use slots::answer::{Answers, answer_word};

// An empty index is written into slices of fit lengths.
#[unsafe(no_mangle)]
pub extern "C" fn oz_fresh(
    names: &mut [u64],
    cells: &mut [u32],
    head: &mut [u32],
    sizes: &mut [u32],
    lines: &mut [u64],
) -> u64
    ensures { record {
      word = result;
      left = lent names.new cells.new head.new sizes.new lines.new;
    }
        ≡ worded
        (freshes (lent names.old cells.old head.old sizes.old lines.old)) }
{
    let made = fresh(names, cells, head, sizes, lines);
    answer_word(made.answer())
}

// A pair with its place joins the tree, and the journal takes a line.
#[unsafe(no_mangle)]
pub extern "C" fn oz_insert(
    names: &mut [u64],
    cells: &mut [u32],
    head: &mut [u32],
    sizes: &mut [u32],
    lines: &mut [u64],
    hash: u64,
    key: u64,
    place: u32,
) -> u64
    ensures { record {
      word = result;
      left = lent names.new cells.new head.new sizes.new lines.new;
    }
        ≡ worded (inserts (lent names.old cells.old head.old sizes.old lines.old)
        hash key place) }
{
    let inserted = insert(names, cells, head, sizes, lines, hash, key, place);
    answer_word(inserted.answer())
}

// A pair leaves the tree, and the journal takes a line.
#[unsafe(no_mangle)]
pub extern "C" fn oz_remove(
    names: &mut [u64],
    cells: &mut [u32],
    head: &mut [u32],
    sizes: &mut [u32],
    lines: &mut [u64],
    hash: u64,
    key: u64,
) -> u64
    ensures { record {
      word = result;
      left = lent names.new cells.new head.new sizes.new lines.new;
    }
        ≡ worded (removes (lent names.old cells.old head.old sizes.old lines.old)
        hash key) }
{
    let removed = remove(names, cells, head, sizes, lines, hash, key);
    answer_word(removed.answer())
}

// A pair has another place, and the journal takes a line with both.
#[unsafe(no_mangle)]
pub extern "C" fn oz_replace(
    names: &[u64],
    cells: &mut [u32],
    head: &[u32],
    sizes: &[u32],
    lines: &mut [u64],
    hash: u64,
    key: u64,
    place: u32,
) -> u64
    ensures { record {
      word = result;
      left = lent names.now cells.new head.now sizes.now lines.new;
    }
        ≡ worded (replaces (lent names.now cells.old head.now sizes.now lines.old)
        hash key place) }
{
    let replaced = replace(names, cells, head, sizes, lines, hash, key, place);
    answer_word(replaced.answer())
}

// The journal's lines above the mark are undone and cleared.
#[unsafe(no_mangle)]
pub extern "C" fn oz_rollback(
    names: &mut [u64],
    cells: &mut [u32],
    head: &mut [u32],
    sizes: &mut [u32],
    lines: &mut [u64],
    mark: u32,
) -> u64
    ensures { record {
      word = result;
      left = lent names.new cells.new head.new sizes.new lines.new;
    }
        ≡ worded (rolls (lent names.old cells.old head.old sizes.old lines.old)
        mark) }
{
    let rolled = rollback(names, cells, head, sizes, lines, mark);
    answer_word(rolled.answer())
}

// The calls of a slice are made in order after one check, each with the word of its answer.
#[unsafe(no_mangle)]
pub extern "C" fn oz_batch(
    names: &mut [u64],
    cells: &mut [u32],
    head: &mut [u32],
    sizes: &mut [u32],
    lines: &mut [u64],
    calls: &[u64],
    answers: &mut [u64],
) -> u64
    ensures { record {
      word = result;
      left = lent names.new cells.new head.new sizes.new lines.new;
      answers = answers.new;
    }
        ≡ batch_worded
        (batches (lent names.old cells.old head.old sizes.old lines.old)
        calls.now answers.old) }
{
    let made = batch(names, cells, head, sizes, lines, calls, answers);
    answer_word(made.answer())
}
