// The word of a search: value + 2^32 * number, and above it how many slots it looked at.
ghost use Rattle.std.specs.Prelude.{◌≡◌, ◌<◌};
ghost use Rattle.slots.specs.Answers.{answer_word};
ghost use Rattle.tree.specs.Find.{counted_of};
ghost use Rattle.word_rules.specs.Words.{search_word};

use slots::answer::answer_word;
use tree::find::Counted;

// The word of a search: its answer's, and above it how many slots it looked at.
pub(crate) fn search_word(counted: Counted) -> u64
    requires counted_bound { answer_word (counted_of counted).answer < 281474976710656 }
    requires counted_bound_2 { (counted_of counted).looks < 65536 }
    ensures { result ≡ search_word (counted_of counted) }
{
    let looks = counted.looks;
    let low = answer_word(counted.answer);
    low + 281474976710656 * (looks as u64)
}
