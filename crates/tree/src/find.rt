// The source's find_tree_node, on any words and from any root.
ghost use Rattle.std.specs.Prelude.{◌≡◌, ◌+◌, ◌*◌, ◌<◌, length, eqb, ltb};
ghost use Rattle.slots.specs.Words.{null, pick, name_of};
ghost use Rattle.slots.specs.Answers.{nothing as saying_nothing, refused as refusing};
ghost use Rattle.tree_rules.specs.Find.{by_key, slots_of, looked, found, with_looks as told_with, counted as countedLooks};
ghost use Rattle.tree.specs.Find.{seen_of, searched_of, searched_by, counted_of, in_a_word};
ghost use Rattle.slots.specs.Coded.{answer_of};

use slots::answer::{Answer, Answers, given, nothing, refused};
use slots::{HASH, KEY, LEFT, NULL, RIGHT, get};

// Decides between slots of one hash, on plain numbers: own is the slot's key, left and right its children. The link along which
// the search goes on, or none where the pair is here.
fn by_key(own: u64, left: u32, right: u32, key: u64) -> Option<u32>
    ensures { seen_of result ≡ by_key own left right key }
{
    if own == key {
        return None;
    }
    if left == NULL {
        return Some(right);
    }
    if right == NULL {
        return Some(left);
    }
    if key < own {
        return Some(left);
    }
    Some(right)
}

// The child on the side of another hash than the slot's, which is at.
fn by_hash(at: u64, left: u32, right: u32, hash: u64) -> u32
    ensures { result ≡ pick (ltb hash at) left right }
{
    if hash < at { left } else { right }
}

// The part f of slot p's name, without the test of slots::name: find_tree_node has tested p.
// Form kept: beside slots::name it leaves a test out (docs/DECISIONS.md, 136).
#[tactic(auto, unfolding(slots::specs::Words::name_of), using(slots::proofs::Laws::get_d_any))]
fn name_of(names: &[u64], p: u32, f: u32) -> u64
    requires { 2 * p + f < length names.now }
    ensures { result ≡ name_of names.now p f }
{
    names[2 * (p as usize) + (f as usize)]
}

// Reads the slot p, and decides: the link to go on along, or none where the pair is here. Both children are read before the
// hashes are compared, so that a processor picks one of two numbers and has no jump to guess, which it would guess wrong at
// every other slot.
fn look(names: &[u64], cells: &[u32], p: u32, hash: u64, key: u64) -> Option<u32>
    requires { p < slots_of names.now }
    ensures { seen_of result ≡ looked names.now cells.now p hash key }
{
    let at = name_of(names, p, HASH);
    let left = get(cells, p, LEFT);
    let right = get(cells, p, RIGHT);
    if at != hash {
        return Some(by_hash(at, left, right, hash));
    }
    let own = name_of(names, p, KEY);
    by_key(own, left, right, key)
}

// What a search answers, and last how many slots it looked at.
// Form kept: no Option or Result, since a search has three ends, and the looks come with each of them.
#[derive(Clone, Copy)]
pub enum Found<Looks> {
    At(u32, Looks),
    Nothing(Looks),
    Lost(Looks), // 9
}

// A search as it is told: the number and value of its answer, and how many slots it looked at.
#[derive(Clone, Copy)]
pub struct Counted {
    pub answer: Answer,
    pub looks: u32,
}

// An answer with so many looks.
pub fn with_looks(looks: u32, answer: Answer) -> Counted
    ensures { counted_of result ≡ told_with looks (answer_of answer) }
{
    Counted { answer, looks }
}

// A number of looks in a word, the highest where there are more.
fn looks_in_a_word(looks: usize) -> u32
    ensures { result ≡ pick (ltb looks 4294967296) looks null }
{
    u32::try_from(looks).unwrap_or(NULL)
}

impl Found<usize> {
    // The same, with the looks in a word.
    // Form kept: three arms, since a routine that maps the looks would take a closure and say the same three again in its clause.
    pub fn in_a_word(self) -> Found<u32>
        ensures { searched_of result ≡ in_a_word (searched_of self) }
    {
        match self {
            Found::At(slot, looks) => Found::At(slot, looks_in_a_word(looks)),
            Found::Nothing(looks) => Found::Nothing(looks_in_a_word(looks)),
            Found::Lost(looks) => Found::Lost(looks_in_a_word(looks)),
        }
    }
}

impl Found<u32> {
    // The number, the value, and how many slots were looked at.
    pub fn counted(self) -> Counted
        ensures { counted_of result ≡ searched_of self }
    {
        match self {
            Found::At(slot, looks) => with_looks(looks, given(slot)),
            Found::Nothing(looks) => with_looks(looks, nothing()),
            Found::Lost(looks) => with_looks(looks, refused(9)),
        }
    }
}

// What a search came to, or the refusal of one that has looked at no slot.
pub fn counted_by<E: Answers>(found: Result<Found<u32>, E>) -> Counted
    ensures { counted_of result ≡ searched_by E.told found }
{
    match found {
        Ok(search) => search.counted(),
        Err(refusal) => with_looks(0, refusal.answer()),
    }
}

// A link that leads to no slot, or to one slot too many: null ends the search, any other is astray.
fn off(p: u32, looks: usize) -> Found<usize>
    ensures { searched_of result ≡ told_with looks (pick (eqb p null) saying_nothing (refusing 9)) }
{
    if p == NULL {
        return Found::Nothing(looks);
    }
    Found::Lost(looks)
}

// The slot that has the pair (hash, key), from root down. Lost where a link followed is neither null nor a slot, and where
// one slot more than there are would be visited.
pub fn find_tree_node(names: &[u64], cells: &[u32], root: u32, hash: u64, key: u64) -> Found<usize>
    ensures { searched_of result ≡ countedLooks (found names.now cells.now root hash key) }
{
    let slots = names.len() / 2;
    let mut p = root;
    for looks in 0..slots {
        if slots <= p as usize {
            return off(p, looks);
        }
        if p == NULL {
            return Found::Nothing(looks);
        }
        let onward = look(names, cells, p, hash, key);
        let Some(q) = onward else {
            return Found::At(p, looks + 1);
        };
        p = q;
    }
    off(p, slots)
}
