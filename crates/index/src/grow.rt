// A free slot takes a pair and its place: "insert" after the check.
ghost use Rattle.std.specs.Prelude.{◌≡◌, ◌-◌};
ghost use Rattle.slots.specs.Words.{rename, hash_part, key_part};
ghost use Rattle.index_rules.specs.Live.{lent_tree};
ghost use Rattle.index_rules.specs.Insert.{free_from, seated, headed};
ghost use Rattle.index_rules.specs.Checked.{lesser as lesserOf};
ghost use Rattle.index.specs.Frees.{grown_if};

use links::hang::hang_slot;
use slots::{
    COUNT, FIRST, FREE, HASH, KEY, MOST_NAMES, NEXT, NULL, PLACE, PREV, ROOT, STATE, get, put,
    put_name, put_word, word,
};

// The lowest free of the n slots from the floor on, null where there is none.
// Form kept: null and no Option, since the clause equates the result with the rules' free_from, whose floors go on from null.
pub fn lowest_free(cells: &[u32], n: u32, floor: u32) -> u32
    ensures { result ≡ free_from (n - floor) cells.now floor }
{
    for k in floor..n {
        if get(cells, k, STATE) == FREE {
            return k;
        }
    }
    NULL
}

// The lesser of two slots; null is more than any.
pub fn lesser(a: u32, b: u32) -> u32
    ensures { result ≡ lesserOf a b }
{
    a.min(b)
}

// Slot x stands in the chain between y and q; nothing is written to a null link.
#[tactic(auto, unfolding(index_rules::specs::Insert::seated))]
fn seat(cells: &mut [u32], x: u32, y: u32, q: u32)
    ensures { cells.new ≡ seated cells.old x y q }
{
    put(cells, x, PREV, y);
    put(cells, x, NEXT, q);
    put(cells, y, NEXT, x);
    put(cells, q, PREV, x);
}

// The header holds root, first and the count.
pub fn head_put(head: &mut [u32], root: u32, first: u32, count: u32)
    ensures { head.new ≡ headed head.old root first count }
{
    put_word(head, ROOT, root);
    put_word(head, FIRST, first);
    put_word(head, COUNT, count);
}

// Slot x has the pair.
pub fn put_pair(names: &mut [u64], x: u32, hash: u64, key: u64)
    ensures { names.new ≡ rename (rename names.old x hash_part hash) x key_part key }
{
    put_name(names, x, HASH, hash);
    put_name(names, x, KEY, key);
}

// The free slot x takes the pair and its place: it goes into the chain right behind y, to the front where y is null, is hung where the
// order says, and counts. Nothing where the names are more than 4,096 slots have, or the count is null.
pub fn grow(
    names: &mut [u64],
    cells: &mut [u32],
    head: &mut [u32],
    sizes: &mut [u32],
    x: u32,
    y: u32,
    hash: u64,
    key: u64,
    place: u32,
)
    ensures { lent_tree names.new cells.new head.new sizes.new
        ≡ grown_if (lent_tree names.old cells.old head.old sizes.old) x y hash key place }
{
    if MOST_NAMES < names.len() {
        return;
    }
    let count = word(head, COUNT, NULL);
    if count == NULL {
        return;
    }
    let n = (names.len() / 2) as u32;
    let root = word(head, ROOT, NULL);
    let first = word(head, FIRST, NULL);
    let more = count + 1;
    let behind = get(cells, y, NEXT);
    let q = if y == NULL { first } else { behind };
    let front = if y == NULL { x } else { first };
    put_pair(names, x, hash, key);
    put(cells, x, PLACE, place);
    seat(cells, x, y, q);
    let top = hang_slot(names, cells, sizes, root, x, hash, key, n);
    head_put(head, top, front, more);
}
