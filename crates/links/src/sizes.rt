// The stored sizes, one word a slot: what a rotation, a slot that joins or leaves, and a trade write there. A sum wraps,
// so that no function needs a bound on the words.
ghost use Rattle.std.specs.Prelude.{◌≡◌, ℕ};
ghost use Rattle.slots.specs.Words.{sum};
ghost use Rattle.redblack.specs.Links.{lent_links};
ghost use Rattle.redblack.specs.Rotate.{recounted};
ghost use Rattle.redblack.specs.Climbing.{climbed, weighed, swapped};

use slots::{NULL, PARENT, get, put_word, word};

// What is added on the way up: one where a slot joins, and where one leaves 2^32 - 1, which takes one off.
pub(crate) const ONE_MORE: u32 = 1;

pub(crate) const ONE_LESS: u32 = 4294967295;

// A sum of words of 32 bits: past the last it begins again at 0.
#[tactic(auto, unfolding(slots::specs::Words::sum))]
fn add(m: u32, n: u32) -> u32
    ensures { result ≡ sum m n }
{
    m.wrapping_add(n)
}

// Once the links of a rotation have moved: r has the size that p had, and p, whose children are a and b now, is counted
// anew from theirs.
pub(crate) fn recount(sizes: &mut [u32], p: u32, r: u32, a: u32, b: u32)
    ensures { sizes.new ≡ recounted sizes.old p r a b }
{
    let old = word(sizes, p as usize, 0);
    put_word(sizes, r as usize, old);
    let one = word(sizes, a as usize, 0);
    let two = word(sizes, b as usize, 0);
    let both = add(one, two);
    let all = add(1, both);
    put_word(sizes, p as usize, all);
}

// The way up by the parent links: d is added to the size of p and of every slot above it, at most so many.
fn climb(cells: &[u32], sizes: &mut [u32], p: u32, d: u32, budget: u32)
    ensures { sizes.new ≡ climbed budget cells.now sizes.old p d }
{
    let mut at = p;
    for _ in 0..budget {
        if at == NULL {
            return;
        }
        let old = word(sizes, at as usize, 0);
        let new = add(old, d);
        put_word(sizes, at as usize, new);
        at = get(cells, at, PARENT);
    }
}

// The slot x has the size v, and every slot above it d more. The root, whatever it is, stays.
pub(crate) fn weigh(cells: &[u32], sizes: &mut [u32], x: u32, v: u32, d: u32, budget: u32)
    ensures { (root : ℕ) → lent_links cells.now root sizes.new
        ≡ weighed budget (lent_links cells.now root sizes.old) x v d }
{
    put_word(sizes, x as usize, v);
    let above = get(cells, x, PARENT);
    climb(cells, sizes, above, d, budget);
}

// The slots p and t have each other's size.
pub(crate) fn exchange(sizes: &mut [u32], p: u32, t: u32)
    ensures { sizes.new ≡ swapped sizes.old p t }
{
    let old = word(sizes, p as usize, 0);
    let new = word(sizes, t as usize, 0);
    put_word(sizes, p as usize, new);
    put_word(sizes, t as usize, old);
}
