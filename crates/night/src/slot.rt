// The tests of one slot.
ghost use Rattle.std.specs.Prelude.{◌≡◌, List, [], ℕ, eqb};
ghost use Rattle.slots.specs.Words.{state, free, cell};
ghost use Rattle.index_rules.specs.Live.{lent_tree};
ghost use Rattle.night_rules.specs.Why.{neg, one_child, misrooted as isMisrooted, twins as areTwins, pair_rises, misfirst as isMisfirst};
ghost use Rattle.night_rules.specs.Why.{shows1 as showing1, shows3 as showing3, shows4 as showing4, shows5 as showing5};
ghost use Rattle.night_rules.specs.Why.{shows6 as showing6, shows7 as showing7, shows8 as showing8};

use crate::below::{blacks_below, number_below};
use crate::ways::{leads_to, next_slot};
use index::sound::is_cleared;
use slots::{
    FIRST, FREE, HASH, KEY, LEFT, NEXT, NULL, PARENT, PREV, RED, RIGHT, ROOT, STATE, comes_before,
    get, is_red, name, word,
};
use tree::check::{links_in, points_back};

// Slot i is not free.
fn is_used(cells: &[u32], i: u32) -> bool
    ensures { result ≡ neg (eqb (cell cells.now i state) free) }
{
    let state = get(cells, i, STATE);
    state != FREE
}

// T1 is broken at slot i.
#[tactic(auto, unfolding(night_rules::specs::Why::shows1, index_rules::specs::Sound::slot_fine, index_rules::specs::Sound::is_cleared))]
pub(crate) fn shows1(names: &[u64], cells: &[u32], i: u32) -> bool
    ensures { (head sizes : List ℕ) → result ≡ showing1 (lent_tree names.now cells.now head sizes) i }
{
    if !links_in(names.len() / 2, cells, i) {
        return true;
    }
    let state = get(cells, i, STATE);
    if state == FREE {
        return !is_cleared(names, cells, i);
    }
    RED < state
}

// Slot i is one of the two children of p and not both.
#[tactic(auto, unfolding(night_rules::specs::Why::one_child))]
fn one_child(cells: &[u32], p: u32, i: u32) -> bool
    ensures { result ≡ one_child cells.now p i }
{
    let l = get(cells, p, LEFT);
    let r = get(cells, p, RIGHT);
    if l == i {
        return r != i;
    }
    r == i
}

// Slot i is the root and has a parent, or is another slot and no child of its own.
#[tactic(auto, unfolding(night_rules::specs::Why::misrooted))]
pub(crate) fn misrooted(cells: &[u32], head: &[u32], i: u32) -> bool
    ensures { (names sizes : List ℕ) → result ≡ isMisrooted (lent_tree names cells.now head.now sizes) i }
{
    let p = get(cells, i, PARENT);
    let root = word(head, ROOT, NULL);
    if i == root {
        return p != NULL;
    }
    !one_child(cells, p, i)
}

// Slot i has the same child twice.
#[tactic(auto, unfolding(night_rules::specs::Why::twins))]
pub(crate) fn twins(cells: &[u32], i: u32) -> bool
    ensures { result ≡ areTwins cells.now i }
{
    let l = get(cells, i, LEFT);
    if l == NULL {
        return false;
    }
    let r = get(cells, i, RIGHT);
    l == r
}

// The pair of slot i comes before that of slot j.
#[tactic(auto, unfolding(night_rules::specs::Why::pair_rises))]
fn pair_rises(names: &[u64], i: u32, j: u32) -> bool
    ensures { result ≡ pair_rises names.now i j }
{
    let hash = name(names, i, HASH);
    let key = name(names, i, KEY);
    let at = name(names, j, HASH);
    let own = name(names, j, KEY);
    comes_before(hash, key, at, own)
}

// Slot i is the first and has a prev.
#[tactic(auto, unfolding(night_rules::specs::Why::misfirst))]
pub(crate) fn misfirst(cells: &[u32], head: &[u32], i: u32) -> bool
    ensures { (names sizes : List ℕ) → result ≡ isMisfirst (lent_tree names cells.now head.now sizes) i }
{
    let first = word(head, FIRST, NULL);
    if i == first {
        let p = get(cells, i, PREV);
        return p != NULL;
    }
    false
}

// T3 is broken at slot i.
#[tactic(auto, unfolding(night_rules::specs::Why::shows3))]
pub(crate) fn shows3(names: &[u64], cells: &[u32], head: &[u32], i: u32) -> bool
    ensures { (sizes : List ℕ) → result ≡ showing3 (lent_tree names.now cells.now head.now sizes) i }
{
    let n = names.len() / 2;
    is_used(cells, i)
        && (misrooted(cells, head, i)
            || !points_back(cells, i, LEFT, PARENT)
            || !points_back(cells, i, RIGHT, PARENT)
            || twins(cells, i)
            || !leads_to(n, cells, PARENT, word(head, ROOT, NULL), i))
}

// T4 is broken at slot i.
#[tactic(auto, unfolding(night_rules::specs::Why::shows4))]
pub(crate) fn shows4(names: &[u64], cells: &[u32], i: u32) -> bool
    ensures { (head sizes : List ℕ) → result ≡ showing4 (lent_tree names.now cells.now head sizes) i }
{
    let n = names.len() / 2;
    if !is_used(cells, i) {
        return false;
    }
    let j = next_slot(n, cells, i);
    if j == NULL {
        return false;
    }
    !pair_rises(names, i, j)
}

// T5 is broken at slot i.
#[tactic(auto, unfolding(night_rules::specs::Why::shows5))]
pub(crate) fn shows5(cells: &[u32], head: &[u32], i: u32) -> bool
    ensures { (names sizes : List ℕ) → result ≡ showing5 (lent_tree names cells.now head.now sizes) i }
{
    is_red(cells, i)
        && (i == word(head, ROOT, NULL)
            || is_red(cells, get(cells, i, LEFT))
            || is_red(cells, get(cells, i, RIGHT)))
}

// T7 is broken at slot i.
#[tactic(auto, unfolding(night_rules::specs::Why::shows7))]
pub(crate) fn shows7(names: &[u64], cells: &[u32], head: &[u32], i: u32) -> bool
    ensures { (sizes : List ℕ) → result ≡ showing7 (lent_tree names.now cells.now head.now sizes) i }
{
    let n = names.len() / 2;
    is_used(cells, i)
        && (misfirst(cells, head, i)
            || !points_back(cells, i, PREV, NEXT)
            || !points_back(cells, i, NEXT, PREV)
            || !leads_to(n, cells, PREV, word(head, FIRST, NULL), i))
}

// T6 is broken at slot i.
#[tactic(auto, unfolding(night_rules::specs::Why::shows6))]
pub(crate) fn shows6(names: &[u64], cells: &[u32], i: u32) -> bool
    ensures { (head sizes : List ℕ) → result ≡ showing6 (lent_tree names.now cells.now head sizes) i }
{
    let n = names.len() / 2;
    if !is_used(cells, i) {
        return false;
    }
    let Some(a) = blacks_below(cells, get(cells, i, LEFT), n) else {
        return false;
    };
    let Some(b) = blacks_below(cells, get(cells, i, RIGHT), n) else {
        return false;
    };
    a != b
}

// T8 is broken at slot i.
#[tactic(auto, unfolding(night_rules::specs::Why::shows8), using(crate::proofs::Parts::held_asked))]
pub(crate) fn shows8(names: &[u64], cells: &[u32], sizes: &[u32], i: u32) -> bool
    ensures { (head : List ℕ) → result ≡ showing8 (lent_tree names.now cells.now head sizes.now) i }
{
    let n = names.len() / 2;
    let size = word(sizes, i as usize, 0);
    let state = get(cells, i, STATE);
    if state == FREE {
        return size != 0;
    }
    let m = number_below(cells, i, n);
    size as u64 != m
}
