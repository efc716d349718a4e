// Whether lent slices are a frozen set's, and where the bins of a table begin.
ghost use Rattle.std.specs.Prelude.{◌≡◌, true, ◌-◌, length, get_or};
ghost use Rattle.set_rules.specs.Words.{bins_before, doubling, fits, lent_set};
ghost use Rattle.set_rules.specs.Words.{doubled as allDoubled, fit_tables};
ghost use Rattle.sets.specs.Bins.{fit_slots};
ghost use Rattle.index_rules.specs.Index.{lent};

use slots::{MOST_SLOTS, word};

// The number of bins of table k; 0 where there is no such table.
pub fn length_at(lengths: &[u32], k: u32) -> u32
    ensures { result ≡ get_or lengths.now k 0 }
{
    word(lengths, k as usize, 0)
}

// Whether a number of bins is one of the thirteen powers of two up to 4,096.
// Form kept: thirteen numbers, since the rules' doubling counts them off.
#[tactic(auto, using(crate::proofs::Sized::powers, crate::proofs::Sized::low_powers, crate::proofs::Sized::no_power))]
fn is_power(x: u32) -> bool
    ensures { result ≡ doubling 13 x 1 }
{
    match x {
        1 | 2 | 4 | 8 | 16 | 32 | 64 | 128 | 256 | 512 | 1024 | 2048 | 4096 => true,
        _ => false,
    }
}

// Whether each table but the first is twice as long as the one before.
fn doubled(lengths: &[u32]) -> bool
    ensures { result ≡ allDoubled (length lengths.now - 1) lengths.now }
{
    let mut short = word(lengths, 0, 0) as u64;
    for k in 1..lengths.len() {
        let long = lengths[k] as u64;
        if long != 2 * short {
            return false;
        }
        short = long;
    }
    true
}

// Whether the tables' lengths obey their rule.
fn fit_tables(lengths: &[u32]) -> bool
    ensures { result ≡ fit_tables lengths.now }
{
    let t = lengths.len();
    if t < 1 || 8 < t {
        return false;
    }
    is_power(length_at(lengths, 0)) && doubled(lengths) && word(lengths, t - 1, 0) <= 4096
}

// How many bins the first k tables have: where the bins of table k begin. Past the last table there are none to add.
pub fn bins_before(lengths: &[u32], k: u32) -> usize
    ensures { result ≡ bins_before lengths.now k }
{
    let tables = lengths.len().min(k as usize);
    let mut sum = 0;
    for length in &lengths[..tables] {
        sum += *length as usize;
    }
    sum
}

// How many bins tables that fit have: each has as many as those before it and the first again.
fn bins_in(lengths: &[u32]) -> usize
    requires { fit_tables lengths.now ≡ true }
    ensures { result ≡ bins_before lengths.now (length lengths.now) }
{
    let first = word(lengths, 0, 0) as usize;
    let last = word(lengths, lengths.len() - 1, 0) as usize;
    2 * last - first
}

// Whether the slices of slots and headers have the lengths of n slots and h headers.
#[tactic(auto, unfolding(crate::specs::Bins::fit_slots))]
fn fit_slots(heads: usize, names: usize, cells: usize) -> bool
    ensures { result ≡ fit_slots heads names cells }
{
    let n = names / 2;
    let h = heads / 3;
    n <= MOST_SLOTS && names == 2 * n && cells == 7 * n && h <= MOST_SLOTS && heads == 3 * h
}

// Whether the slices are a frozen set's.
pub fn fit_set(lengths: &[u32], bins: &[u32], heads: &[u32], names: &[u64], cells: &[u32]) -> bool
    ensures { result
        ≡ fits (lent_set lengths.now bins.now heads.now names.now cells.now) }
{
    fit_tables(lengths)
        && bins.len() == bins_in(lengths)
        && fit_slots(heads.len(), names.len(), cells.len())
}
