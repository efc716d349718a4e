// The full check of a live tree: T1 to T8, where one pass over the slots answers for T1 but for the links of used slots, and for the sizes
// of free slots; one walk of the tree for T3 to T6 and the sizes of its own slots; and walk and chain for those links, as they follow them.
ghost use Rattle.std.specs.Prelude.{◌≡◌, true, false, List, [], ℕ, ◌≤◌, length, eqb};
ghost use Rattle.slots.specs.Words.{null, pick, state, free, cell, most_names};
ghost use Rattle.tree_rules.specs.Chain.{tally};
ghost use Rattle.index_rules.specs.Live.{lent_tree, fits};
ghost use Rattle.index_rules.specs.Sound.{used, is_cleared, slot_fine, slots_fine, agree, sounds};
ghost use Rattle.index_rules.specs.Sound.{rule2 as obeys2, rule7 as obeys7, sound as obeysAll};
ghost use Rattle.index_rules.specs.Index.{lent};
ghost use Rattle.index_rules.specs.Checked.{sounds_index};
ghost use Rattle.index.specs.Reads.{sound_of, taken_as_sound};
ghost use Rattle.slots.specs.Coded.{value_of};
ghost use Rattle.index.specs.Sound.{state_fine, used_if_fine, rule1_unlinked, tree_rules};

use crate::fit::{fit, fit_index};
use crate::journal::fit_journal;
use slots::answer::Unfit;
use slots::{
    COUNT, FIRST, FREE, HASH, KEY, LEFT, MOST_SLOTS, NEXT, NULL, PARENT, PLACE, PREV, RED, RIGHT,
    ROOT, STATE, get, name, word,
};
use tree::chain::chain;
use tree::check::{in_range, links_in};
use tree::rules::tree_size;

// Slot i is cleared: all zero with null links.
#[tactic(auto, unfolding(index_rules::specs::Sound::is_cleared))]
pub fn is_cleared(names: &[u64], cells: &[u32], i: u32) -> bool
    ensures { result ≡ is_cleared (lent_tree names.now cells.now [] []) i }
{
    name(names, i, HASH) == 0
        && name(names, i, KEY) == 0
        && get(cells, i, PLACE) == 0
        && get(cells, i, PARENT) == NULL
        && get(cells, i, LEFT) == NULL
        && get(cells, i, RIGHT) == NULL
        && get(cells, i, PREV) == NULL
        && get(cells, i, NEXT) == NULL
}

// T1 of slot i but for its links: its state is 0, 1 or 2, and it is cleared if it is free; and T8 of a free one: it has no size.
#[tactic(auto, unfolding(crate::specs::Sound::state_fine, index_rules::specs::Sound::is_cleared))]
fn state_fine(names: &[u64], cells: &[u32], sizes: &[u32], i: u32) -> bool
    ensures { result ≡ state_fine (lent_tree names.now cells.now [] sizes.now) i }
{
    let state = get(cells, i, STATE);
    if state == FREE {
        return is_cleared(names, cells, i) && word(sizes, i as usize, 0) == 0;
    }
    state <= RED
}

// T1 of slot i, which has no size: its links too are null or name one of n slots.
#[tactic(auto, unfolding(index_rules::specs::Sound::slot_fine, index_rules::specs::Sound::is_cleared))]
fn slot_fine(names: &[u64], cells: &[u32], n: usize, i: u32) -> bool
    ensures { result ≡ slot_fine n (lent_tree names.now cells.now [] []) i }
{
    if !links_in(n, cells, i) {
        return false;
    }
    let state = get(cells, i, STATE);
    if state == FREE {
        return is_cleared(names, cells, i);
    }
    state <= RED
}

// T1 of each of the n slots, which have no sizes.
pub fn slots_fine(names: &[u64], cells: &[u32], n: u32) -> bool
    ensures { result ≡ slots_fine n n (lent_tree names.now cells.now [] []) }
{
    for k in (0..n).rev() {
        if !slot_fine(names, cells, n as usize, k) {
            return false;
        }
    }
    true
}

// 1 for a slot that is not free, 0 for a free one.
fn used_slot(cells: &[u32], i: u32) -> u32
    ensures { result ≡ used cells.now i }
{
    (get(cells, i, STATE) != FREE) as u32
}

// The number of the n slots that are not free.
pub fn used_slots(cells: &[u32], n: u32) -> u32
    ensures { result ≡ tally n (used cells.now) }
{
    let mut count: u32 = 0;
    for k in (0..n).rev() {
        count += used_slot(cells, k);
    }
    count
}

// T1 of each of the n slots but for their links, T8 of the free ones, and how many are not free, in one pass.
fn used_if_fine(names: &[u64], cells: &[u32], sizes: &[u32], n: u32) -> Option<u32>
    ensures { value_of result ≡ used_if_fine n (lent_tree names.now cells.now [] sizes.now) }
{
    let mut count: u32 = 0;
    for k in (0..n).rev() {
        if !state_fine(names, cells, sizes, k) {
            return None;
        }
        count += used_slot(cells, k);
    }
    Some(count)
}

// T1 but for the links of the slots: states are 0, 1 or 2; free slots are cleared; the count is the number of slots not free; root and
// first are null or name a slot. And T8 of free slots. The links of a used slot are followed by the tree's walk and by the chain.
fn rules_of_the_slots(names: &[u64], cells: &[u32], head: &[u32], sizes: &[u32]) -> bool
    requires { length names.now ≤ most_names }
    ensures { result ≡ rule1_unlinked (lent_tree names.now cells.now head.now sizes.now) }
{
    let n = names.len() / 2;
    let Some(m) = used_if_fine(names, cells, sizes, n as u32) else {
        return false;
    };
    let count = word(head, COUNT, NULL);
    in_range(n, word(head, ROOT, NULL)) && in_range(n, word(head, FIRST, NULL)) && count == m
}

// The link is null exactly if the count is 0.
pub fn null_if_none(link: u32, count: u32) -> bool
    ensures { result ≡ agree (eqb link null) (eqb count 0) }
{
    (link == NULL) == (count == 0)
}

// T2: root and first are null exactly if the count is 0.
#[tactic(auto, unfolding(index_rules::specs::Sound::rule2))]
fn rule2(head: &[u32]) -> bool
    ensures { result ≡ obeys2 (lent_tree [] [] head.now []) }
{
    let count = word(head, COUNT, NULL);
    null_if_none(word(head, ROOT, NULL), count) && null_if_none(word(head, FIRST, NULL), count)
}

// T3 to T6 and T8 of the tree's slots in one walk: the tree from the root obeys them, and has as many slots as the count says.
fn rules_of_the_tree(names: &[u64], cells: &[u32], head: &[u32], sizes: &[u32]) -> bool
    ensures { result ≡ tree_rules (lent_tree names.now cells.now head.now sizes.now) }
{
    let root = word(head, ROOT, NULL);
    let Some(m) = tree_size(names, cells, sizes, root) else {
        return false;
    };
    let count = word(head, COUNT, NULL);
    m == count as usize
}

// A link is null or its slot is not free.
fn not_free(cells: &[u32], link: u32) -> bool
    ensures { result ≡ pick (eqb link null) true (pick (eqb (cell cells.now link state) free) false true) }
{
    link == NULL || get(cells, link, STATE) != FREE
}

// T7: first is not free, prev is the reverse of next, null at first, and next visits as many slots from first as the count says.
#[tactic(auto, unfolding(index_rules::specs::Sound::rule7))]
fn rule7(names: &[u64], cells: &[u32], head: &[u32]) -> bool
    ensures { (sizes : List ℕ) → result ≡ obeys7 (lent_tree names.now cells.now head.now sizes) }
{
    let n = names.len() / 2;
    let first = word(head, FIRST, NULL);
    if !not_free(cells, first) {
        return false;
    }
    let Some(rest) = chain(n, cells, first) else {
        return false;
    };
    let count = word(head, COUNT, NULL);
    n - rest == count as usize
}

// The tree obeys T1 to T8.
fn is_sound(names: &[u64], cells: &[u32], head: &[u32], sizes: &[u32]) -> bool
    requires { fits (lent_tree names.now cells.now head.now sizes.now) ≡ true }
    ensures { result ≡ obeysAll (lent_tree names.now cells.now head.now sizes.now) }
{
    rules_of_the_slots(names, cells, head, sizes)
        && rule2(head)
        && rules_of_the_tree(names, cells, head, sizes)
        && rule7(names, cells, head)
}

// Whether the tree is sound, by the full check of T1 to T8. Unfit where the slices are not a live tree's.
#[tactic(auto, unfolding(index_rules::specs::Sound::sounds))]
pub fn sound(names: &[u64], cells: &[u32], head: &[u32], sizes: &[u32]) -> Result<bool, Unfit>
    ensures { sound_of result ≡ sounds (lent_tree names.now cells.now head.now sizes.now) }
{
    if !fit(names, cells, head, sizes) {
        return Err(Unfit);
    }
    Ok(is_sound(names, cells, head, sizes))
}

// Whether the tree is sound, where the journal is fit as well: the first two numbers of every call that writes, 1 and 2.
pub fn sound_index(
    names: &[u64],
    cells: &[u32],
    head: &[u32],
    sizes: &[u32],
    lines: &[u64],
) -> Result<bool, Unfit>
    ensures { sound_of result
        ≡ sounds_index (lent names.now cells.now head.now sizes.now lines.now) }
{
    if !fit_journal(lines) {
        return Err(Unfit);
    }
    sound(names, cells, head, sizes)
}

// What is asked again where the full check has said yes: 1 as ever, and of 2 only whether the header's count passes no capacity.
#[tactic(auto, unfolding(crate::specs::Reads::taken_as_sound))]
pub(crate) fn taken_as_sound(
    names: &[u64],
    cells: &[u32],
    head: &[u32],
    sizes: &[u32],
    lines: &[u64],
) -> Result<bool, Unfit>
    ensures { sound_of result
        ≡ taken_as_sound (lent names.now cells.now head.now sizes.now lines.now) }
{
    if !fit_index(names, cells, head, sizes, lines) {
        return Err(Unfit);
    }
    Ok(word(head, COUNT, NULL) as usize <= MOST_SLOTS)
}
