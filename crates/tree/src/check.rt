// The source's check_invariants, on any words and from any root.
ghost use Rattle.std.specs.Prelude.{◌≡◌, ◌+◌, ◌*◌, ◌<◌, length};
ghost use Rattle.slots.specs.Words.{cell};
ghost use Rattle.tree.specs.Check.{failing_of, walk_of, fault_of, checked_of};
ghost use Rattle.tree_rules.specs.Check.{points_back, is_child, left_hash, right_hash, not_all_red, first_failing};
ghost use Rattle.tree_rules.specs.Check.{test as holds};
ghost use Rattle.tree_rules.specs.Check.{in_range, links_in, walked, checked};

use slots::answer::{Answer, Answers, refused};
use slots::{HASH, LEFT, NEXT, NULL, PARENT, PREV, RIGHT, get, is_red, name};

// The neighbour of i along the field f, if any, points back to i along the field g.
#[tactic(auto, unfolding(tree_rules::specs::Check::points_back))]
pub fn points_back(cells: &[u32], i: u32, f: u32, g: u32) -> bool
    ensures { result ≡ points_back cells.now i f g }
{
    let j = get(cells, i, f);
    j == NULL || get(cells, j, g) == i
}

// The parent of i, if any, has it as its left or its right child.
#[tactic(auto, unfolding(tree_rules::specs::Check::is_child))]
fn is_child(cells: &[u32], i: u32) -> bool
    ensures { result ≡ is_child cells.now i }
{
    let p = get(cells, i, PARENT);
    p == NULL || (get(cells, p, LEFT) == i || get(cells, p, RIGHT) == i)
}

// The hash of i's left child, if any, is at most i's.
#[tactic(auto, unfolding(tree_rules::specs::Check::left_hash))]
fn left_hash(names: &[u64], cells: &[u32], i: u32) -> bool
    ensures { result ≡ left_hash names.now cells.now i }
{
    let l = get(cells, i, LEFT);
    l == NULL || name(names, l, HASH) <= name(names, i, HASH)
}

// The hash of i's right child, if any, is at least i's.
#[tactic(auto, unfolding(tree_rules::specs::Check::right_hash))]
fn right_hash(names: &[u64], cells: &[u32], i: u32) -> bool
    ensures { result ≡ right_hash names.now cells.now i }
{
    let r = get(cells, i, RIGHT);
    r == NULL || name(names, i, HASH) <= name(names, r, HASH)
}

// i is not red, or lacks a child, or one of its two children is not red.
#[tactic(auto, unfolding(tree_rules::specs::Check::not_all_red))]
fn not_all_red(cells: &[u32], i: u32) -> bool
    ensures { result ≡ not_all_red cells.now i }
{
    let l = get(cells, i, LEFT);
    let r = get(cells, i, RIGHT);
    !is_red(cells, i) || l == NULL || r == NULL || !is_red(cells, l) || !is_red(cells, r)
}

// Whether test t of the eight holds at slot i, in source order.
// Form kept: the rules tell a failing test by its number, 100 + t, so that an enum of the eight would be turned back into it.
fn test(names: &[u64], cells: &[u32], t: u8, i: u32) -> bool
    ensures { result ≡ holds names.now cells.now t i }
{
    match t {
        1 => points_back(cells, i, PREV, NEXT),
        2 => points_back(cells, i, NEXT, PREV),
        3 => is_child(cells, i),
        4 => points_back(cells, i, LEFT, PARENT),
        5 => left_hash(names, cells, i),
        6 => points_back(cells, i, RIGHT, PARENT),
        7 => right_hash(names, cells, i),
        _ => not_all_red(cells, i),
    }
}

// The number of the first of the eight tests that fails at slot i, if one does.
fn first_failing(names: &[u64], cells: &[u32], i: u32) -> Option<u8>
    ensures { result ≡ failing_of (first_failing names.now cells.now i) }
{
    for t in 1..9 {
        let fine = test(names, cells, t, i);
        if !fine {
            return Some(t);
        }
    }
    None
}

// A link is null or names one of n slots.
pub fn in_range(n: usize, link: u32) -> bool
    ensures { result ≡ in_range n link }
{
    link == NULL || (link as usize) < n
}

// The field f of slot i, whose word is there.
// Form kept: beside slots::get it leaves a test out (docs/DECISIONS.md, 136).
#[tactic(auto, unfolding(slots::specs::Words::cell), using(slots::proofs::Laws::get_d_any))]
fn held(cells: &[u32], i: u32, f: u32) -> u32
    requires { 7 * i + f < length cells.now }
    ensures { result ≡ cell cells.now i f }
{
    cells[7 * (i as usize) + (f as usize)]
}

// So is each of slot i's own five links, whose words are there.
// Form kept: they differ in how a word is read: one test of the last word's place in place of five (docs/DECISIONS.md, 136).
#[tactic(auto, unfolding(tree_rules::specs::Check::links_in))]
fn links_held(n: usize, cells: &[u32], i: u32) -> bool
    requires { 7 * i + 6 < length cells.now }
    ensures { result ≡ links_in n cells.now i }
{
    let parent = in_range(n, held(cells, i, PARENT));
    let left = in_range(n, held(cells, i, LEFT));
    let right = in_range(n, held(cells, i, RIGHT));
    let prev = in_range(n, held(cells, i, PREV));
    let next = in_range(n, held(cells, i, NEXT));
    parent && left && right && prev && next
}

// So is each of slot i's own five links, where some of its words may not be there.
// Form kept: links_held differs in how a word is read: one test of the last word's place in place of five (docs/DECISIONS.md, 136).
#[tactic(auto, unfolding(tree_rules::specs::Check::links_in))]
fn links_read(n: usize, cells: &[u32], i: u32) -> bool
    ensures { result ≡ links_in n cells.now i }
{
    let parent = in_range(n, get(cells, i, PARENT));
    let left = in_range(n, get(cells, i, LEFT));
    let right = in_range(n, get(cells, i, RIGHT));
    let prev = in_range(n, get(cells, i, PREV));
    let next = in_range(n, get(cells, i, NEXT));
    parent && left && right && prev && next
}

// So is each of slot i's own five links: one test of its last word's place answers for the five.
pub fn links_in(n: usize, cells: &[u32], i: u32) -> bool
    ensures { result ≡ links_in n cells.now i }
{
    if 7 * (i as usize) + 6 < cells.len() {
        return links_held(n, cells, i);
    }
    links_read(n, cells, i)
}

// Why a tree does not pass: a test fails at a slot, or the walk is lost.
#[derive(Clone, Copy)]
pub enum Fault {
    Fails(u8, u32),
    Lost, // 9
}

impl Answers for Fault {
    ghost told = { fault_of };

    // The number of a failing test stands above 100.
    fn answer(self) -> Answer {
        match self {
            Fault::Fails(test, slot) => Answer {
                number: 100 + test as u32,
                value: Some(slot),
            },
            Fault::Lost => refused(9),
        }
    }
}

// Visits the slot i, then its left subtree whole, then the right; the visits left where all passes.
fn visit(names: &[u64], cells: &[u32], i: u32, visits: usize) -> Result<usize, Fault>
    ensures { walk_of result ≡ walked visits names.now cells.now i visits }
{
    if i == NULL {
        return Ok(visits);
    }
    let slots = names.len() / 2;
    if slots <= i as usize {
        return Err(Fault::Lost);
    }
    if visits == 0 {
        return Err(Fault::Lost);
    }
    let named = links_read(slots, cells, i);
    if !named {
        return Err(Fault::Lost);
    }
    let failing = first_failing(names, cells, i);
    if let Some(test) = failing {
        return Err(Fault::Fails(test, i));
    }
    let l = get(cells, i, LEFT);
    let rest = visit(names, cells, l, visits - 1)?;
    let r = get(cells, i, RIGHT);
    visit(names, cells, r, rest)
}

// The first failing test with its slot; none where all pass. Lost where the root or one of a visited slot's five links is out of
// range, and where one slot more than there are would be visited.
pub fn check_invariants(names: &[u64], cells: &[u32], root: u32) -> Option<Fault>
    ensures { checked_of result ≡ checked names.now cells.now root }
{
    let slots = names.len() / 2;
    visit(names, cells, root, slots).err()
}
