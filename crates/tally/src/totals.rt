// The totals' words: their order, their ranges, and one of them added to.
ghost use Rattle.std.specs.Prelude.{◌≡◌, ◌+◌, ◌<◌, ◌≤◌};
ghost use Rattle.figure_rules.specs.Totals.{total_at, sets_in, most_sets, most_added, words_fit, fits_totals};
ghost use Rattle.figure_rules.specs.Tally.{with_more, row_word};

use slots::{put_word, word};

// "sets, refused, entries, lists, trees, looks, then the rows 1 to 32 and the last row"
// Form kept: numbers, since the totals are a slice that C lends, read by place.
pub(crate) const SETS: usize = 0;

pub(crate) const REFUSED: usize = 1;

pub(crate) const ENTRIES: usize = 2;

pub(crate) const LISTS: usize = 3;

pub(crate) const TREES: usize = 4;

pub(crate) const LOOKS: usize = 5;

pub(crate) const LAST_ROW: usize = 38;

const WORDS: usize = 39;

pub(crate) const MOST_SETS: u64 = 1000000;

// What one set may add to word j, from the entries on.
fn most_added(j: usize) -> u64
    ensures { result ≡ most_added j }
{
    if j == LOOKS { 16777216 } else { 4096 }
}

// Whether each word from the entries on is in its range, where so many sets are accepted.
fn words_fit(totals: &[u64], sets: u64) -> bool
    requires { (sets ≡ sets_in totals.now) × (sets ≤ most_sets) }
    ensures { result ≡ words_fit 37 totals.now }
{
    for j in (0..37usize).rev() {
        let most = most_added(2 + j);
        let total = word(totals, 2 + j, 0);
        if most * sets < total {
            return false;
        }
    }
    true
}

// Whether the totals are 39 words, each in its range.
pub(crate) fn fit_totals(totals: &[u64]) -> bool
    ensures { result ≡ fits_totals totals.now }
{
    if totals.len() != WORDS {
        return false;
    }
    let sets = word(totals, SETS, 0);
    if MOST_SETS < sets {
        return false;
    }
    let refused = word(totals, REFUSED, 0);
    if MOST_SETS - sets < refused {
        return false;
    }
    words_fit(totals, sets)
}

// The word of the row of so many looks.
pub(crate) fn row_word(looks: usize) -> usize
    ensures { result ≡ row_word looks }
{
    if looks <= 32 { 5 + looks } else { LAST_ROW }
}

// Word j with v more.
pub(crate) fn add_to(totals: &mut [u64], j: usize, v: u64)
    requires { total_at totals.old j + v < 18446744073709551616 }
    ensures { totals.new ≡ with_more totals.old j v }
{
    let total = word(totals, j, 0);
    put_word(totals, j, total + v)
}
