// The live tree's entry points that only read.
ghost use Rattle.std.specs.Prelude.{◌≡◌};
ghost use Rattle.tree_rules.specs.Find.{counted as countedLooks};
ghost use Rattle.index_rules.specs.Live.{lent_tree, unsized};
ghost use Rattle.index_rules.specs.Find.{finds};
ghost use Rattle.index_rules.specs.Check.{checks};
ghost use Rattle.index_rules.specs.Sound.{sounds};
ghost use Rattle.index_rules.specs.Ranks.{kths, positions};
ghost use Rattle.slots.specs.Answers.{answer_word};
ghost use Rattle.word_rules.specs.Words.{search_word, check_word};

use crate::words::search_word;
use index::check::check;
use index::find::find;
use index::sound::sound;
use ranks::kth::kth;
use ranks::position::position;
use slots::answer::{Answers, answer_word, word_with};
use tree::find::counted_by;

// The slot of a live tree that has a pair, and how many slots were looked at.
#[unsafe(no_mangle)]
pub extern "C" fn oz_find(names: &[u64], cells: &[u32], head: &[u32], hash: u64, key: u64) -> u64
    ensures { result ≡ search_word (countedLooks (finds (unsized names.now cells.now head.now) hash key)) }
{
    let found = find(names, cells, head, hash, key);
    search_word(counted_by(found))
}

// The source's own check of a live tree.
#[unsafe(no_mangle)]
pub extern "C" fn oz_check(names: &[u64], cells: &[u32], head: &[u32]) -> u64
    ensures { result ≡ check_word (checks (unsized names.now cells.now head.now)) }
{
    let checked = check(names, cells, head);
    word_with(0, checked.answer())
}

// The full check of a live tree: T1 to T8.
#[unsafe(no_mangle)]
pub extern "C" fn oz_sound(names: &[u64], cells: &[u32], head: &[u32], sizes: &[u32]) -> u64
    ensures { result
        ≡ answer_word (sounds (lent_tree names.now cells.now head.now sizes.now)) }
{
    let verdict = sound(names, cells, head, sizes);
    answer_word(verdict.answer())
}

// The slot of the pair at position k in order, counted from 0.
#[unsafe(no_mangle)]
pub extern "C" fn oz_kth(names: &[u64], cells: &[u32], head: &[u32], sizes: &[u32], k: u32) -> u64
    ensures { result
        ≡ answer_word (kths (lent_tree names.now cells.now head.now sizes.now) k) }
{
    let at = kth(names, cells, head, sizes, k);
    answer_word(at.answer())
}

// The position of a pair in order, counted from 0.
#[unsafe(no_mangle)]
pub extern "C" fn oz_position(
    names: &[u64],
    cells: &[u32],
    head: &[u32],
    sizes: &[u32],
    hash: u64,
    key: u64,
) -> u64
    ensures { result
        ≡ answer_word (positions (lent_tree names.now cells.now head.now sizes.now)
        hash key) }
{
    let positioned = position(names, cells, head, sizes, hash, key);
    answer_word(positioned.answer())
}
