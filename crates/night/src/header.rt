// The two rules that the header has a part in, whole.
ghost use Rattle.std.specs.Prelude.{◌≡◌, List, ℕ, ◌≤◌, length};
ghost use Rattle.slots.specs.Words.{most_names};
ghost use Rattle.index_rules.specs.Live.{lent_tree};
ghost use Rattle.index_rules.specs.Sound.{rule1 as obeys1, rule2 as obeys2};

use index::sound::{null_if_none, slots_fine, used_slots};
use slots::{COUNT, FIRST, NULL, ROOT, word};
use tree::check::in_range;

// T1 of all slots and of the header.
#[tactic(auto, unfolding(index_rules::specs::Sound::rule1), using(crate::proofs::Sought::any_header))]
pub(crate) fn rule1(names: &[u64], cells: &[u32], head: &[u32]) -> bool
    requires { length names.now ≤ most_names }
    ensures { (sizes : List ℕ) → result ≡ obeys1 (lent_tree names.now cells.now head.now sizes) }
{
    let n = names.len() / 2;
    slots_fine(names, cells, n as u32)
        && in_range(n, word(head, ROOT, NULL))
        && in_range(n, word(head, FIRST, NULL))
        && word(head, COUNT, NULL) == used_slots(cells, n as u32)
}

// T2: root and first are null exactly if the count is 0.
#[tactic(auto, unfolding(index_rules::specs::Sound::rule2))]
pub(crate) fn rule2(head: &[u32]) -> bool
    ensures { (names cells sizes : List ℕ) → result ≡ obeys2 (lent_tree names cells head.now sizes) }
{
    let count = word(head, COUNT, NULL);
    null_if_none(word(head, ROOT, NULL), count) && null_if_none(word(head, FIRST, NULL), count)
}
