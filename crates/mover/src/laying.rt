// The bin is taken out of its table, and each half is laid in the next.
ghost use Rattle.std.specs.Prelude.{◌≡◌, ℕ, ◌+◌, ◌/◌, ◌<◌, length, set};
ghost use Rattle.set_rules.specs.Words.{lent_set, bins_before};
ghost use Rattle.move_rules.specs.Moving.{list_head, tree_head, bin_taken, half_laid};
ghost use Rattle.mover.specs.Moved.{header_of_half};

use crate::halves::{first_of, header_of};
use crate::headers::put_header;
use crate::passes::{grow, plain, thread};
use sets::bin::{FIRST_LIST, FIRST_TREE, MOVED};
use sets::fit::{bins_before, length_at};
use slots::NULL;

// The most slots and headers of a set.
const MOST: u32 = 4096;

// Writes the word of bin i of table k; nothing where there is none.
fn put_bin(lengths: &[u32], bins: &mut [u32], k: u32, i: u32, w: u32)
    ensures { bins.new ≡ set bins.old (bins_before lengths.now k + i) w }
{
    let from = bins_before(lengths, k);
    if bins.len() <= from {
        return;
    }
    let at = i as usize;
    if bins.len() - from <= at {
        return;
    }
    bins[from + at] = w;
}

// The word of the list from slot p; 0 where no set has such a slot.
// Form kept: two functions, since the rules name the two (list_head, tree_head).
fn list_head(p: u32) -> u32
    ensures { result ≡ list_head p }
{
    if p < MOST { p + FIRST_LIST } else { 0 }
}

// The word of the tree of header h; 0 where no set has such a header.
fn tree_head(h: u32) -> u32
    ensures { result ≡ tree_head h }
{
    if h < MOST { h + FIRST_TREE } else { 0 }
}

// Bin i of table k becomes Moved, its header is given back, and its entries are strung by halves.
pub(crate) fn take_bin(
    lengths: &[u32],
    bins: &mut [u32],
    heads: &mut [u32],
    names: &[u64],
    cells: &mut [u32],
    k: u32,
    i: u32,
    n: u32,
)
    requires { (n ≡ length names.now / 2) × (k < 8) }
    ensures { lent_set lengths.now bins.new heads.new names.now cells.new
        ≡ bin_taken
        (lent_set lengths.now bins.old heads.old names.now cells.old) k i }
{
    let own = header_of(lengths, bins, heads, n, k, i);
    let first = first_of(lengths, bins, heads, n, k, i);
    let below = length_at(lengths, k + 1);
    put_bin(lengths, bins, k, i, MOVED);
    put_header(heads, own, NULL, NULL, 0);
    thread(names, cells, below, i, first, n);
}

// The slots from the link first, so many, become bin i of table k: a list, or the tree of their header.
pub(crate) fn lay(
    lengths: &[u32],
    bins: &mut [u32],
    heads: &mut [u32],
    names: &[u64],
    cells: &mut [u32],
    k: u32,
    i: u32,
    header: Option<u32>,
    first: u32,
    count: u32,
    n: u32,
)
    requires { n ≡ length names.now / 2 }
    ensures { (h : ℕ) → header ≡ header_of_half count h
        → lent_set lengths.now bins.new heads.new names.now cells.new
        ≡ half_laid (lent_set lengths.now bins.old heads.old names.now cells.old) k i h
        first count }
{
    let Some(h) = header else {
        put_bin(lengths, bins, k, i, list_head(first));
        plain(cells, first, n);
        return;
    };
    let root = grow(names, cells, first, n);
    put_header(heads, h, root, first, count);
    put_bin(lengths, bins, k, i, tree_head(h));
}
