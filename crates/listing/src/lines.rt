// The lines of a set: its counts, and its entries in the order of the walk.
ghost use Rattle.std.specs.Prelude.{◌≡◌, List, ℕ, ◌/◌, ◌≤◌, length};
ghost use Rattle.script_rules.specs.Feeding.{typed, lent_paper};
ghost use Rattle.set_rules.specs.Words.{lent_set};
ghost use Rattle.set_rules.specs.Cursor.{starts};
ghost use Rattle.listing_rules.specs.Lines.{home_table, slot_line, walk_lines, counts_line, set_text};

use console::fill::fill;
use index::sound::used_slots;
use sets::bin::{MOVED, bin_word, index};
use sets::fit::{fit_set, length_at};
use sets::walk::Cursor;
use slots::{HASH, KEY, PLACE, get, name};

// The last of eight tables.
const LAST_TABLE: u32 = 7;

// The table whose bin for a hash is the first that is not Moved; of eight the last.
fn home_table(lengths: &[u32], bins: &[u32], hash: u64) -> u32
    ensures { (heads names cells : List ℕ) → result
        ≡ home_table 7 (lent_set lengths.now bins.now heads names cells) 0 hash }
{
    for k in 0..LAST_TABLE {
        let length = length_at(lengths, k);
        let i = index(length, hash);
        let word = bin_word(lengths, bins, k, i);
        if word != MOVED {
            return k;
        }
    }
    LAST_TABLE
}

// The line of slot x.
// Form kept: no Display, since a clause says byte for byte what stands in a lent slice, and the library has no heap.
fn tell_slot(
    out: &mut [u8],
    at: usize,
    lengths: &[u32],
    bins: &[u32],
    names: &[u64],
    cells: &[u32],
    x: u32,
) -> usize
    ensures { (heads : List ℕ) → lent_paper out.new result
        ≡ typed (lent_paper out.old at)
        (slot_line (lent_set lengths.now bins.now heads names.now cells.now) x) }
{
    let hash = name(names, x, HASH);
    let table = home_table(lengths, bins, hash);
    let length = length_at(lengths, table);
    let bin = index(length, hash);
    let key = name(names, x, KEY);
    let place = get(cells, x, PLACE);
    let numbers = [table as u64, bin as u64, x as u64, hash, key, place as u64];
    fill(out, at, b"# # # # # #\n", &numbers)
}

// A line for each entry that the walk from table 0 gives: no more than there are slots.
fn tell_walk(
    out: &mut [u8],
    at: usize,
    lengths: &[u32],
    bins: &[u32],
    heads: &[u32],
    names: &[u64],
    cells: &[u32],
) -> usize
    ensures { lent_paper out.new result
        ≡ typed (lent_paper out.old at)
        (walk_lines (length names.now / 2)
        (lent_set lengths.now bins.now heads.now names.now cells.now)
        (starts (lent_set lengths.now bins.now heads.now names.now cells.now) 0
        ).cursor) }
{
    let start = Cursor::start(lengths, bins, heads, names, cells, 0);
    let mut cursor = start.unwrap_or(Cursor::blank());
    let mut end = at;
    for _told in 0..names.len() / 2 {
        let step = cursor.next(lengths, bins, heads, names, cells);
        let entry = step.answer.unwrap_or(None);
        let Some(x) = entry else {
            return end;
        };
        end = tell_slot(out, end, lengths, bins, names, cells, x);
        cursor = step.cursor;
    }
    end
}

// The line of counts of a set of so many slots.
fn tell_counts(
    out: &mut [u8],
    lengths: &[u32],
    bins: &[u32],
    heads: &[u32],
    names: &[u64],
    cells: &[u32],
) -> usize
    requires { length names.now / 2 ≤ 4096 }
    ensures { lent_paper out.new result
        ≡ typed (lent_paper out.old 0)
        (counts_line (lent_set lengths.now bins.now heads.now names.now cells.now)) }
{
    let n = names.len() / 2;
    let entries = used_slots(cells, n as u32);
    let numbers = [
        lengths.len() as u64,
        bins.len() as u64,
        (heads.len() / 3) as u64,
        n as u64,
        entries as u64,
    ];
    fill(
        out,
        0,
        b"tables # bins # headers # slots # entries #\n",
        &numbers,
    )
}

// The counts and the entries; words that do not fit are 1.
pub(crate) fn tell_set(
    out: &mut [u8],
    lengths: &[u32],
    bins: &[u32],
    heads: &[u32],
    names: &[u64],
    cells: &[u32],
) -> usize
    ensures { lent_paper out.new result
        ≡ typed (lent_paper out.old 0)
        (set_text (lent_set lengths.now bins.now heads.now names.now cells.now)) }
{
    let fits = fit_set(lengths, bins, heads, names, cells);
    if !fits {
        let numbers = [1u64];
        return fill(out, 0, b"no #\n", &numbers);
    }
    let counted = tell_counts(out, lengths, bins, heads, names, cells);
    tell_walk(out, counted, lengths, bins, heads, names, cells)
}
