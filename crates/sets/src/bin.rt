// What a bin's word says, which bin a hash names, and the words of a tree header.
ghost use Rattle.std.specs.Prelude.{◌≡◌, ◌+◌, ◌*◌, ◌<◌, get_or};
ghost use Rattle.slots.specs.Words.{null};
ghost use Rattle.set_rules.specs.Words.{bins_before, bin_of};
ghost use Rattle.set_rules.specs.Words.{bini as home};
ghost use Rattle.sets.specs.Bins.{bin_as, home_of, binis};

use crate::fit::bins_before;
use slots::answer::Unfit;
use slots::{NULL, word};

// The word f of the header h; null where there is no such word.
pub(crate) fn header(heads: &[u32], h: u32, f: usize) -> u32
    requires { f < 3 }
    ensures { result ≡ get_or heads.now (3 * h + f) null }
{
    word(heads, 3 * (h as usize) + f, NULL)
}

// The word of bin i of the table whose bins begin at `from`; 0 where there is no such word.
fn word_from(bins: &[u32], from: usize, i: u32) -> u32
    ensures { result ≡ get_or bins.now (from + i) 0 }
{
    if bins.len() <= from {
        return 0;
    }
    let at = i as usize;
    if bins.len() - from <= at {
        return 0;
    }
    bins[from + at]
}

// The word of bin i of table k; 0 where there is no such word.
pub fn bin_word(lengths: &[u32], bins: &[u32], k: u32, i: u32) -> u32
    ensures { result ≡ get_or bins.now (bins_before lengths.now k + i) 0 }
{
    word_from(bins, bins_before(lengths, k), i)
}

// The word of a Moved bin; those that name a list's first slot, and those that name a tree's header.
pub const MOVED: u32 = 1;

pub const FIRST_LIST: u32 = 2;

const LAST_LIST: u32 = 4097;

pub const FIRST_TREE: u32 = 4098;

const LAST_TREE: u32 = 8193;

// What a bin word says, by its range.
#[derive(Clone, Copy)]
pub enum Bin {
    Empty,
    Moved,
    List(u32),
    Tree(u32),
    Bad,
}

// The bin that the word w is in a set of n slots and h headers.
// Form kept: no From, since a word says a bin only by the numbers of slots and headers.
#[tactic(auto, unfolding(set_rules::specs::Words::bin_of))]
pub fn bin_of(n: usize, h: usize, w: u32) -> Bin
    ensures { bin_as result ≡ bin_of n h w }
{
    match w {
        0 => Bin::Empty,
        MOVED => Bin::Moved,
        FIRST_LIST..=LAST_LIST => {
            if ((w - FIRST_LIST) as usize) < n {
                Bin::List(w - FIRST_LIST)
            } else {
                Bin::Bad
            }
        }
        FIRST_TREE..=LAST_TREE => {
            if ((w - FIRST_TREE) as usize) < h {
                Bin::Tree(w - FIRST_TREE)
            } else {
                Bin::Bad
            }
        }
        _ => Bin::Bad,
    }
}

// Bin i of the table whose bins begin at `from`, in a set of n slots and h headers.
pub(crate) fn bin_from(bins: &[u32], n: usize, h: usize, from: usize, i: u32) -> Bin
    ensures { bin_as result ≡ bin_of n h (get_or bins.now (from + i) 0) }
{
    let word = word_from(bins, from, i);
    bin_of(n, h, word)
}

// The bin for a hash in a table of so many bins. Unfit where there are none.
#[tactic(auto, unfolding(crate::specs::Bins::binis, set_rules::specs::Words::bini))]
pub fn bini(length: u32, hash: u64) -> Result<u32, Unfit>
    ensures { home_of result ≡ binis length hash }
{
    if length == 0 {
        return Err(Unfit);
    }
    let mask = length as u64 - 1;
    Ok((hash & mask) as u32)
}

// The index of the bin for a hash in a table of so many bins: a fit set has no table of none, and there the index is 0.
#[tactic(auto, using(crate::proofs::Binned::index_is))]
pub fn index(length: u32, hash: u64) -> u32
    ensures { result ≡ home length hash }
{
    bini(length, hash).unwrap_or(0)
}
