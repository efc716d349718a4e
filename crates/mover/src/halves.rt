// What is read before anything is written: of a bin its first slot and its header, and of each half how many and which first.
ghost use Rattle.std.specs.Prelude.{◌≡◌, ◌+◌, ◌/◌, ◌<◌, length, get_or};
ghost use Rattle.set_rules.specs.Words.{lent_set, bins_before, bin_of};
ghost use Rattle.sets.specs.Bins.{bin_as};
ghost use Rattle.move_rules.specs.Passes.{home_count, first_home};
ghost use Rattle.move_rules.specs.Moving.{first_in, header_in, half_count, half_first};

use sets::bin::{Bin, bin_of, bin_word};
use sets::fit::length_at;
use sets::lists::is_home;
use slots::{FIRST, NEXT, NULL, get, word};

// The first slot of a bin in listing order; null where it has none.
// Form kept: null and no Option: what is written to null is nothing, and the move rests on that (first_in in the rules).
fn first_in(heads: &[u32], bin: Bin) -> u32
    ensures { result ≡ first_in heads.now (bin_as bin) }
{
    match bin {
        Bin::Empty => NULL,
        Bin::Moved => NULL,
        Bin::List(slot) => slot,
        Bin::Tree(h) => word(heads, 3 * (h as usize) + FIRST, NULL),
        Bin::Bad => NULL,
    }
}

// The header of a bin; null where it has none.
// Form kept: null and no Option: what is written to null is nothing, and the move rests on that (header_in in the rules).
fn header_in(bin: Bin) -> u32
    ensures { result ≡ header_in (bin_as bin) }
{
    match bin {
        Bin::Empty => NULL,
        Bin::Moved => NULL,
        Bin::List(_) => NULL,
        Bin::Tree(h) => h,
        Bin::Bad => NULL,
    }
}

// How many of the slots from the link first have a hash that names bin i of a table of so many bins.
fn home_count(names: &[u64], cells: &[u32], length: u32, i: u32, first: u32, most: u32) -> u32
    ensures { result ≡ home_count most names.now cells.now length i first }
{
    let mut p = first;
    let mut count: u32 = 0;
    for _ in 0..most {
        if p == NULL {
            break;
        }
        count += is_home(names, length, i, p) as u32;
        let next = get(cells, p, NEXT);
        p = next;
    }
    count
}

// The first of them; null where there is none.
// Form kept: null and no Option: what is written to null is nothing, and the move rests on that (first_home in the rules).
fn first_home(names: &[u64], cells: &[u32], length: u32, i: u32, first: u32, most: u32) -> u32
    ensures { result ≡ first_home most names.now cells.now length i first }
{
    let mut p = first;
    for _ in 0..most {
        if p == NULL {
            break;
        }
        let home = is_home(names, length, i, p);
        if home {
            return p;
        }
        let next = get(cells, p, NEXT);
        p = next;
    }
    NULL
}

// Bin i of table k, in a set of n slots.
fn bin_at(lengths: &[u32], bins: &[u32], heads: &[u32], n: u32, k: u32, i: u32) -> Bin
    ensures { bin_as result
        ≡ bin_of n (length heads.now / 3) (get_or bins.now (bins_before lengths.now k + i) 0) }
{
    bin_of(n as usize, heads.len() / 3, bin_word(lengths, bins, k, i))
}

// Its first slot.
// Form kept: null where it has none, as first_in has it.
pub(crate) fn first_of(lengths: &[u32], bins: &[u32], heads: &[u32], n: u32, k: u32, i: u32) -> u32
    ensures { result ≡ first_in heads.now
        (bin_of n (length heads.now / 3) (get_or bins.now (bins_before lengths.now k + i) 0)) }
{
    first_in(heads, bin_at(lengths, bins, heads, n, k, i))
}

// Its header.
// Form kept: null where it has none, as header_in has it.
pub(crate) fn header_of(lengths: &[u32], bins: &[u32], heads: &[u32], n: u32, k: u32, i: u32) -> u32
    ensures { result
        ≡ header_in (bin_of n (length heads.now / 3) (get_or bins.now (bins_before lengths.now k + i) 0)) }
{
    header_in(bin_at(lengths, bins, heads, n, k, i))
}

// How many entries of bin i of table k go to bin j below.
// Form kept: a walk for each, since the rules name the two (half_count, half_first), and where a move is refused only the counts are asked.
pub(crate) fn half_count(
    lengths: &[u32],
    bins: &[u32],
    heads: &[u32],
    names: &[u64],
    cells: &[u32],
    k: u32,
    i: u32,
    j: u32,
    n: u32,
) -> u32
    requires { (n ≡ length names.now / 2) × (k < 8) }
    ensures { result
        ≡ half_count
        (lent_set lengths.now bins.now heads.now names.now cells.now) k i j }
{
    let first = first_of(lengths, bins, heads, n, k, i);
    let below = length_at(lengths, k + 1);
    home_count(names, cells, below, j, first, n)
}

// The first of them.
pub(crate) fn half_first(
    lengths: &[u32],
    bins: &[u32],
    heads: &[u32],
    names: &[u64],
    cells: &[u32],
    k: u32,
    i: u32,
    j: u32,
    n: u32,
) -> u32
    requires { (n ≡ length names.now / 2) × (k < 8) }
    ensures { result
        ≡ half_first
        (lent_set lengths.now bins.now heads.now names.now cells.now) k i j }
{
    let first = first_of(lengths, bins, heads, n, k, i);
    let below = length_at(lengths, k + 1);
    first_home(names, cells, below, j, first, n)
}
