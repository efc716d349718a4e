// Where a walk stands: whether a cursor's numbers are fine, and which point comes after one.
ghost use Rattle.std.specs.Prelude.{◌≡◌, ◌+◌, ◌-◌, ◌<◌, ◌≤◌, ◌^◌, length, get_or, set};
ghost use Rattle.set_rules.specs.Cursor.{level_fine, levels_fine, base_fine};
ghost use Rattle.set_rules.specs.Cursor.{fine as allFine};
ghost use Rattle.set_rules.specs.Walk.{walk_point, kept, trimmed, advanced};

use crate::fit::length_at;
use tree::check::in_range;

// The index at level j.
pub(crate) fn index_at(indexes: &[u32; 8], j: u32) -> u32
    requires { j < 8 }
    ensures { result ≡ get_or indexes.now j 0 }
{
    let k = j as usize;
    indexes[k]
}

// Writes the index at level j.
pub(crate) fn set_index(indexes: &mut [u32; 8], j: u32, i: u32)
    requires { j < 8 }
    ensures { indexes.new ≡ set indexes.old j i }
{
    let k = j as usize;
    indexes[k] = i;
}

// An index k below one at i: in range, and the same or that plus the upper length.
#[tactic(auto, unfolding(set_rules::specs::Cursor::level_fine))]
fn level_fine(upper: u32, lower: u32, i: u32, k: u32) -> bool
    ensures { result ≡ level_fine upper lower i k }
{
    k < lower && (k == i || k as u64 == i as u64 + upper as u64)
}

// Each of the levels 1 to depth is fine under the one above.
#[tactic(auto, unfolding(set_rules::specs::Cursor::levels_fine))]
fn levels_fine(lengths: &[u32], base: u32, depth: u32, indexes: &[u32; 8]) -> bool
    requires { (depth < 8) × (base + depth < 2 ^ 32) }
    ensures { result ≡ levels_fine depth lengths.now base indexes.now }
{
    for d in (0..depth).rev() {
        let lower = length_at(lengths, base + (d + 1));
        let k = index_at(indexes, d + 1);
        let upper = length_at(lengths, base + d);
        let i = index_at(indexes, d);
        let fine = level_fine(upper, lower, i, k);
        if !fine {
            return false;
        }
    }
    true
}

// The base index is below the base length, or at depth 0 the end.
#[tactic(auto, unfolding(set_rules::specs::Cursor::base_fine))]
fn base_fine(length: u32, depth: u32, i: u32) -> bool
    ensures { result ≡ base_fine length depth i }
{
    i < length || (depth == 0 && i == length)
}

// A cursor's numbers, over tables of these lengths, at most eight, and n slots.
#[tactic(auto, unfolding(set_rules::specs::Cursor::fine))]
pub(crate) fn fine(
    lengths: &[u32],
    n: usize,
    base: u32,
    depth: u32,
    indexes: &[u32; 8],
    last: u32,
) -> bool
    requires { length lengths.now ≤ 8 }
    ensures { result ≡ allFine lengths.now n base depth indexes.now last }
{
    let table = base as usize + depth as usize;
    table < lengths.len()
        && base_fine(length_at(lengths, base), depth, index_at(indexes, 0))
        && levels_fine(lengths, base, depth, indexes)
        && in_range(n, last)
}

// The index at level j, 0 past the depth.
#[tactic(auto, unfolding(set_rules::specs::Walk::kept))]
fn keep(indexes: &[u32; 8], depth: u32, j: u32) -> u32
    requires { j < 8 }
    ensures { result ≡ kept depth indexes.now j }
{
    if depth < j {
        return 0;
    }
    index_at(indexes, j)
}

// The indexes, 0 past the depth.
pub(crate) fn trim(indexes: &[u32; 8], depth: u32) -> [u32; 8]
    ensures { result ≡ trimmed depth indexes.now }
{
    let mut trimmed = [0; 8];
    for j in 0..8 {
        set_index(&mut trimmed, j, keep(indexes, depth, j));
    }
    trimmed
}

// The source's recover_state: that index plus the upper length, while below the lower length; then up. It gives the depth.
pub(crate) fn advance(lengths: &[u32], base: u32, depth: u32, indexes: &mut [u32; 8]) -> u32
    requires { (depth < 8) × (base + depth < 2 ^ 32) × (get_or indexes.old 0 0 + 1 < 2 ^ 32) }
    ensures { walk_point result indexes.new ≡ advanced depth lengths.now base indexes.old }
{
    for d in (0..depth).rev() {
        let lower = length_at(lengths, base + (d + 1)) as u64;
        let upper = length_at(lengths, base + d) as u64;
        let on = index_at(indexes, d + 1) as u64 + upper;
        if on < lower {
            set_index(indexes, d + 1, on as u32);
            return d + 1;
        }
        set_index(indexes, d + 1, 0);
    }
    let first = index_at(indexes, 0);
    set_index(indexes, 0, first + 1);
    0
}
