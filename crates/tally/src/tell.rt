// What is printed of the figures.
ghost use Rattle.std.specs.Prelude.{◌≡◌, [], ◌∷◌, ◌≤◌, length};
ghost use Rattle.script_rules.specs.Blanks.{blanks_filled};
ghost use Rattle.script_rules.specs.Feeding.{typed, lent_paper};
ghost use Rattle.figure_rules.specs.Totals.{total_at};
ghost use Rattle.figure_rules.specs.Stream.{figures};
ghost use Rattle.figure_rules.specs.Printed.{rows_text, figures_text};
ghost use Rattle.tally.specs.Parts.{counts_text, last_text};

use crate::totals::{ENTRIES, LAST_ROW, LISTS, LOOKS, REFUSED, SETS, TREES};
use console::fill::fill;
use slots::word;

// A line of one number.
// Form kept: no Display, since a clause says byte for byte what stands in a lent slice, and the library has no heap.
fn tell_word(out: &mut [u8], at: usize, sentence: &[u8], totals: &[u64], j: usize) -> usize
    ensures { lent_paper out.new result
        ≡ typed (lent_paper out.old at) (blanks_filled sentence.now (total_at totals.now j ∷ [])) }
{
    let numbers = [word(totals, j, 0)];
    fill(out, at, sentence, &numbers)
}

// The lines of the five counts.
fn tell_counts(out: &mut [u8], totals: &[u64]) -> usize
    ensures { lent_paper out.new result
        ≡ typed (lent_paper out.old 0) (counts_text totals.now) }
{
    let sets = tell_word(out, 0, b"sets #\n", totals, SETS);
    let refused = tell_word(out, sets, b"refused #\n", totals, REFUSED);
    let entries = tell_word(out, refused, b"entries #\n", totals, ENTRIES);
    let lists = tell_word(out, entries, b"lists #\n", totals, LISTS);
    tell_word(out, lists, b"trees #\n", totals, TREES)
}

// The lines of the rows 1 to 32.
fn tell_rows(out: &mut [u8], at: usize, totals: &[u64]) -> usize
    ensures { lent_paper out.new result
        ≡ typed (lent_paper out.old at) (rows_text 32 totals.now 1) }
{
    let mut end = at;
    for i in 1..33usize {
        let numbers = [i as u64, word(totals, 5 + i, 0)];
        end = fill(out, end, b"looks # #\n", &numbers);
    }
    end
}

// The last row and the mean.
fn tell_last(out: &mut [u8], at: usize, totals: &[u64]) -> usize
    ensures { lent_paper out.new result
        ≡ typed (lent_paper out.old at) (last_text totals.now) }
{
    let more = tell_word(out, at, b"more #\n", totals, LAST_ROW);
    let numbers = [word(totals, LOOKS, 0), word(totals, ENTRIES, 0)];
    fill(out, more, b"mean # #\n", &numbers)
}

// Writes what is printed of the figures, and answers how many bytes were written: all of it where there is room for 2,048.
pub fn tell(totals: &[u64], over: bool, out: &mut [u8]) -> usize
    ensures result_after { lent_paper out.new result
        ≡ typed (lent_paper out.old 0) (figures_text (figures totals.now over)) }
    ensures bounds { result ≤ length out.new }
{
    let counts = tell_counts(out, totals);
    let rows = tell_rows(out, counts, totals);
    let last = tell_last(out, rows, totals);
    if over {
        let numbers: [u64; 0] = [];
        return fill(out, last, b"no 17\n", &numbers);
    }
    last
}
