// The frozen set's entry points.
ghost use Rattle.std.specs.Prelude.{◌≡◌};
ghost use Rattle.tree_rules.specs.Find.{counted as countedLooks};
ghost use Rattle.set_rules.specs.Words.{lent_set};
ghost use Rattle.set_rules.specs.Accepting.{accepts};
ghost use Rattle.set_rules.specs.Lookup.{lookups};
ghost use Rattle.slots.specs.Answers.{answer_word};
ghost use Rattle.word_rules.specs.Words.{search_word};
ghost use Rattle.word_rules.specs.Cursors.{Kept, started_cursor, walked_cursor};

use crate::cursor::{keep, read};
use crate::words::search_word;
use sets::accept::accept;
use sets::lookup::lookup;
use sets::walk::Cursor;
use slots::answer::{Answers, answer_word, packed};
use tree::find::counted_by;

// Whether a frozen set is accepted.
#[unsafe(no_mangle)]
pub extern "C" fn oz_accept(
    lengths: &[u32],
    bins: &[u32],
    heads: &[u32],
    names: &[u64],
    cells: &[u32],
) -> u64
    ensures { result
        ≡ answer_word (accepts
        (lent_set lengths.now bins.now heads.now names.now cells.now)) }
{
    let acceptance = accept(lengths, bins, heads, names, cells);
    answer_word(acceptance.answer())
}

// The slot of a frozen set that has a pair, from a table on, and how many slots were looked at.
#[unsafe(no_mangle)]
pub extern "C" fn oz_lookup(
    lengths: &[u32],
    bins: &[u32],
    heads: &[u32],
    names: &[u64],
    cells: &[u32],
    table: u32,
    hash: u64,
    key: u64,
) -> u64
    ensures { result
        ≡ search_word (countedLooks (lookups
        (lent_set lengths.now bins.now heads.now names.now
        cells.now) table hash key)) }
{
    let looked = lookup(lengths, bins, heads, names, cells, table, hash, key);
    search_word(counted_by(looked))
}

// A cursor at the first bin of a table, written into eleven words; a refused call leaves them as they were.
#[unsafe(no_mangle)]
pub extern "C" fn oz_start(
    lengths: &[u32],
    bins: &[u32],
    heads: &[u32],
    names: &[u64],
    cells: &[u32],
    table: u32,
    cursor: &mut [u32],
) -> u64
    ensures { record { word = result; cursor = cursor.new }
        ≡ started_cursor (lent_set lengths.now bins.now heads.now names.now
        cells.now) table cursor.old }
{
    if cursor.len() != 11 {
        return packed(1, 0);
    }
    let started = Cursor::start(lengths, bins, heads, names, cells, table);
    let told = answer_word(started.answer());
    keep(cursor, told, started.unwrap_or(Cursor::blank()));
    told
}

// The next entry after a cursor of eleven words, which are then the new cursor; a refused call leaves them as they were.
#[unsafe(no_mangle)]
pub extern "C" fn oz_walk(
    lengths: &[u32],
    bins: &[u32],
    heads: &[u32],
    names: &[u64],
    cells: &[u32],
    cursor: &mut [u32],
) -> u64
    ensures { record { word = result; cursor = cursor.new }
        ≡ walked_cursor (lent_set lengths.now bins.now heads.now names.now cells.now)
        cursor.old }
{
    if cursor.len() != 11 {
        return packed(1, 0);
    }
    let at = read(cursor);
    let step = at.next(lengths, bins, heads, names, cells);
    let given = step.answer;
    let after = step.cursor;
    let told = answer_word(given.answer());
    keep(cursor, told, after);
    told
}
