// How a rule is broken at the slot that shows it, or in the header: what a sentence has to tell.
ghost use Rattle.std.specs.Prelude.{◌≡◌, List, ℕ, ◌≤◌, length};
ghost use Rattle.slots.specs.Words.{cell, most_names};
ghost use Rattle.tree_rules.specs.Check.{in_range};
ghost use Rattle.index_rules.specs.Live.{lent_tree};
ghost use Rattle.night_rules.specs.Why.{neg};
ghost use Rattle.night_rules.specs.Breach.{link_with, is_set, left_in, misseated as isMisseated, away_from, breach1 as breaks1};
ghost use Rattle.night_rules.specs.Breach.{breach3 as breaks3};
ghost use Rattle.night_rules.specs.Breach.{breach4 as breaks4, breach5 as breaks5, breach7 as breaks7, breach8 as breaks8};
ghost use Rattle.night_rules.specs.Breach.{header1 as breaksHeader1, header2 as breaksHeader2, breach as broken};
ghost use Rattle.night.specs.Told.{account_of};
ghost use Rattle.night.specs.Breaches.{breach_of};

use crate::account::Account;
use crate::below::number_below;
use crate::slot::{misfirst, misrooted, twins};
use index::sound::{null_if_none, used_slots};
use slots::{
    COUNT, FIRST, FREE, HASH, KEY, LEFT, NEXT, NULL, PARENT, PLACE, PREV, RED, RIGHT, ROOT, STATE,
    get, is_red, name, word,
};
use tree::check::{in_range, points_back};

// What breaks the rule, with the numbers that show it.
#[derive(Clone, Copy)]
pub enum Breach {
    StrayLink(u32, u32), // T1: a link's field, the link
    StrayState(u32), // the state
    LeftHash(u64), // of a free slot: its hash
    LeftKey(u64), // its key
    LeftField(u32, u32), // another field, what stands there
    StrayRoot(u32), // of the header: root
    StrayFirst(u32), // first
    Miscount(u32, u32), // the count, the slots used
    RootCount(u32, u32), // T2: the count, root
    FirstCount(u32, u32), // the count, first
    RootUnder(u32), // T3: the root's parent
    Orphan, // no parent
    Disowned(u32, u32, u32), // the parent, its two children
    ChildElsewhere(u32, u32, u32), // a child's field, the child, the child's parent
    ChildTwice(u32), // the one child
    OffRoot(u32), // root
    Falls(u64, u64, u64, u64, u32), // T4: hash and key, those of the next slot in order, that slot
    RedRoot, // T5
    RedUnder(u32, u32), // a child's field, the child
    Uneven(u32, u32), // T6: the black slots of the two ways
    FirstBehind(u32), // T7: the first's prev
    PrevAstray(u32, u32), // the prev, its next
    NextAstray(u32, u32), // the next, its prev
    OffFirst(u32), // first
    WrongSize(u32, u64), // T8: the size, the number of pairs
    FreeSize(u32), // the size of a free slot
}

// The first of slot i's five links that names no slot, null where each is null or a slot.
// Form kept: null and no Option, since the clause equates the result with the rules' link_with, and left_in tells null as the field.
fn stray_link(n: usize, cells: &[u32], i: u32) -> u32
    ensures { result ≡ link_with (λ f. neg (in_range n (cell cells.now i f))) }
{
    for f in PARENT..7 {
        if !in_range(n, get(cells, i, f)) {
            return f;
        }
    }
    NULL
}

// The first of slot i's five links that is not null, null where each is.
// Form kept: null and no Option, since the clause equates the result with the rules' link_with, and left_in tells null as the field.
fn set_link(cells: &[u32], i: u32) -> u32
    ensures { result ≡ link_with (is_set cells.now i) }
{
    for f in PARENT..7 {
        if get(cells, i, f) != NULL {
            return f;
        }
    }
    NULL
}

// What is not cleared in the free slot i.
#[tactic(auto, unfolding(night_rules::specs::Breach::left_in))]
fn left_in(names: &[u64], cells: &[u32], i: u32) -> Breach
    ensures { breach_of result ≡ left_in names.now cells.now i }
{
    let hash = name(names, i, HASH);
    if hash != 0 {
        return Breach::LeftHash(hash);
    }
    let key = name(names, i, KEY);
    if key != 0 {
        return Breach::LeftKey(key);
    }
    let place = get(cells, i, PLACE);
    if place != 0 {
        return Breach::LeftField(PLACE, place);
    }
    let f = set_link(cells, i);
    let link = get(cells, i, f);
    Breach::LeftField(f, link)
}

// T1 at slot i.
#[tactic(auto, unfolding(night_rules::specs::Breach::breach1))]
fn breach1(names: &[u64], cells: &[u32], i: u32) -> Breach
    ensures { (head sizes : List ℕ) → breach_of result ≡ breaks1 (lent_tree names.now cells.now head sizes) i }
{
    let f = stray_link(names.len() / 2, cells, i);
    if f != NULL {
        let link = get(cells, i, f);
        return Breach::StrayLink(f, link);
    }
    let state = get(cells, i, STATE);
    if state <= RED {
        return left_in(names, cells, i);
    }
    Breach::StrayState(state)
}

// T1 in the header.
#[tactic(auto, unfolding(night_rules::specs::Breach::header1))]
fn header1(names: &[u64], cells: &[u32], head: &[u32]) -> Breach
    requires { length names.now ≤ most_names }
    ensures { (sizes : List ℕ) → breach_of result
        ≡ breaksHeader1 (lent_tree names.now cells.now head.now sizes) }
{
    let n = names.len() / 2;
    let root = word(head, ROOT, NULL);
    if !in_range(n, root) {
        return Breach::StrayRoot(root);
    }
    let first = word(head, FIRST, NULL);
    if !in_range(n, first) {
        return Breach::StrayFirst(first);
    }
    let count = word(head, COUNT, NULL);
    let used = used_slots(cells, n as u32);
    Breach::Miscount(count, used)
}

// T2 in the header.
#[tactic(auto, unfolding(night_rules::specs::Breach::header2))]
fn header2(head: &[u32]) -> Breach
    ensures { (names cells sizes : List ℕ) → breach_of result ≡ breaksHeader2 (lent_tree names cells head.now sizes) }
{
    let root = word(head, ROOT, NULL);
    let count = word(head, COUNT, NULL);
    if null_if_none(root, count) {
        let first = word(head, FIRST, NULL);
        return Breach::FirstCount(count, first);
    }
    Breach::RootCount(count, root)
}

// The root with a parent, or a slot that is no child of its own.
#[tactic(auto, unfolding(night_rules::specs::Breach::misseated))]
fn misseated(cells: &[u32], head: &[u32], i: u32) -> Breach
    ensures { (names sizes : List ℕ) → breach_of result
        ≡ isMisseated (lent_tree names cells.now head.now sizes) i }
{
    let p = get(cells, i, PARENT);
    let root = word(head, ROOT, NULL);
    if i == root {
        return Breach::RootUnder(p);
    }
    if p == NULL {
        return Breach::Orphan;
    }
    let l = get(cells, p, LEFT);
    let r = get(cells, p, RIGHT);
    Breach::Disowned(p, l, r)
}

// The child along the field f has another parent.
fn away_from(cells: &[u32], i: u32, f: u32) -> Breach
    ensures { breach_of result ≡ away_from cells.now i f }
{
    let x = get(cells, i, f);
    let p = get(cells, x, PARENT);
    Breach::ChildElsewhere(f, x, p)
}

// T3 at slot i.
#[tactic(auto, unfolding(night_rules::specs::Breach::breach3))]
fn breach3(cells: &[u32], head: &[u32], i: u32) -> Breach
    ensures { (names sizes : List ℕ) → breach_of result ≡ breaks3 (lent_tree names cells.now head.now sizes) i }
{
    if misrooted(cells, head, i) {
        return misseated(cells, head, i);
    }
    if !points_back(cells, i, LEFT, PARENT) {
        return away_from(cells, i, LEFT);
    }
    if !points_back(cells, i, RIGHT, PARENT) {
        return away_from(cells, i, RIGHT);
    }
    if twins(cells, i) {
        let l = get(cells, i, LEFT);
        return Breach::ChildTwice(l);
    }
    let root = word(head, ROOT, NULL);
    Breach::OffRoot(root)
}

// T4 at slot i, whose next in order is j.
#[tactic(auto, unfolding(night_rules::specs::Breach::breach4))]
fn breach4(names: &[u64], i: u32, j: u32) -> Breach
    ensures { breach_of result ≡ breaks4 names.now i j }
{
    let hash = name(names, i, HASH);
    let key = name(names, i, KEY);
    let at = name(names, j, HASH);
    let own = name(names, j, KEY);
    Breach::Falls(hash, key, at, own, j)
}

// T5 at slot i.
#[tactic(auto, unfolding(night_rules::specs::Breach::breach5))]
fn breach5(cells: &[u32], head: &[u32], i: u32) -> Breach
    ensures { (names sizes : List ℕ) → breach_of result ≡ breaks5 (lent_tree names cells.now head.now sizes) i }
{
    let root = word(head, ROOT, NULL);
    if i == root {
        return Breach::RedRoot;
    }
    let l = get(cells, i, LEFT);
    if is_red(cells, l) {
        return Breach::RedUnder(LEFT, l);
    }
    let r = get(cells, i, RIGHT);
    Breach::RedUnder(RIGHT, r)
}

// T7 at slot i.
#[tactic(auto, unfolding(night_rules::specs::Breach::breach7))]
fn breach7(cells: &[u32], head: &[u32], i: u32) -> Breach
    ensures { (names sizes : List ℕ) → breach_of result ≡ breaks7 (lent_tree names cells.now head.now sizes) i }
{
    let p = get(cells, i, PREV);
    let x = get(cells, i, NEXT);
    if misfirst(cells, head, i) {
        return Breach::FirstBehind(p);
    }
    if !points_back(cells, i, PREV, NEXT) {
        let other = get(cells, p, NEXT);
        return Breach::PrevAstray(p, other);
    }
    if !points_back(cells, i, NEXT, PREV) {
        let other = get(cells, x, PREV);
        return Breach::NextAstray(x, other);
    }
    let first = word(head, FIRST, NULL);
    Breach::OffFirst(first)
}

// T8 at slot i.
#[tactic(auto, unfolding(night_rules::specs::Breach::breach8, crate::specs::Told::held_number))]
fn breach8(names: &[u64], cells: &[u32], sizes: &[u32], i: u32) -> Breach
    ensures { (head : List ℕ) → breach_of result
        ≡ breaks8 (lent_tree names.now cells.now head sizes.now) i }
{
    let size = word(sizes, i as usize, 0);
    let state = get(cells, i, STATE);
    if state == FREE {
        return Breach::FreeSize(size);
    }
    let m = number_below(cells, i, names.len() / 2);
    Breach::WrongSize(size, m)
}

// How the rule that is told is broken, at the slot that is told or in the header.
#[tactic(auto, unfolding(night_rules::specs::Breach::breach))]
pub(crate) fn broken_by(
    names: &[u64],
    cells: &[u32],
    head: &[u32],
    sizes: &[u32],
    told: Account,
) -> Breach
    requires { length names.now ≤ most_names }
    ensures { breach_of result
        ≡ broken (lent_tree names.now cells.now head.now sizes.now) (account_of told) }
{
    let rule = told.rule;
    let i = told.slot;
    // Form kept: by the rule's number, since an Account has it so, and each rule's breach reads other things.
    match rule {
        1 => {
            if i == NULL {
                header1(names, cells, head)
            } else {
                breach1(names, cells, i)
            }
        }
        2 => header2(head),
        3 => breach3(cells, head, i),
        4 => breach4(names, i, told.other),
        5 => breach5(cells, head, i),
        6 => {
            let one = told.one;
            let two = told.two;
            Breach::Uneven(one.blacks, two.blacks)
        }
        7 => breach7(cells, head, i),
        _ => breach8(names, cells, sizes, i),
    }
}
