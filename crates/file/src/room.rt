// What the lent slices hold of a section.
ghost use Rattle.std.specs.Prelude.{◌≡◌, ◌≤◌, leb};
ghost use Rattle.set_rules.specs.Words.{lent_set};
ghost use Rattle.file_rules.specs.Layout.{can_hold};
ghost use Rattle.file_rules.specs.Loader.{FitLoader, has_room};
ghost use Rattle.file_rules.specs.Loading.{may_count};
ghost use Rattle.file.specs.Meanings.{loader_words};

use crate::loader::{Loader, count_of, most_of};

// Whether a slice of so many words has room for others.
fn has(words: u64, length: usize) -> bool
    ensures { result ≡ leb words length }
{
    words <= length as u64
}

// Whether the slices can hold c items of section s.
// Form kept: a section is its number, as in count_of.
fn can_hold(
    lengths: &[u32],
    bins: &[u32],
    heads: &[u32],
    names: &[u64],
    cells: &[u32],
    s: u64,
    c: u64,
) -> bool
    requires { c ≤ 8160 }
    ensures { result
        ≡ can_hold (lent_set lengths.now bins.now heads.now names.now cells.now) s
        c }
{
    if s == 0 {
        return has(c, lengths.len());
    }
    if s == 1 {
        return has(c, bins.len());
    }
    if s == 2 {
        return has(3 * c, heads.len());
    }
    let named = has(2 * c, names.len());
    if !named {
        return false;
    }
    has(7 * c, cells.len())
}

// Whether the slices hold what the counts say.
pub(crate) fn has_room(
    lengths: &[u32],
    bins: &[u32],
    heads: &[u32],
    names: &[u64],
    cells: &[u32],
    r: Loader,
) -> bool
    requires { FitLoader (loader_words r) }
    ensures { result
        ≡ has_room (loader_words r)
        (lent_set lengths.now bins.now heads.now names.now cells.now) }
{
    for s in 0..4 {
        let count = count_of(r, s);
        let holds = can_hold(lengths, bins, heads, names, cells, s, count);
        if !holds {
            return false;
        }
    }
    true
}

// Whether a count is within the limit of section s and the slices.
pub(crate) fn may_count(
    lengths: &[u32],
    bins: &[u32],
    heads: &[u32],
    names: &[u64],
    cells: &[u32],
    s: u64,
    c: u64,
) -> bool
    ensures { result
        ≡ may_count (lent_set lengths.now bins.now heads.now names.now cells.now)
        s c }
{
    let most = most_of(s);
    if most < c {
        return false;
    }
    can_hold(lengths, bins, heads, names, cells, s, c)
}
