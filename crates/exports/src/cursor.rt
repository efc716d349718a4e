// A cursor as eleven words: base table, depth, eight indexes, last slot.
ghost use Rattle.std.specs.Prelude.{◌≡◌};
ghost use Rattle.sets.specs.Cursors.{cursor_of};
ghost use Rattle.word_rules.specs.Cursors.{cursor_in, written, left_in};

use sets::walk::Cursor;
use slots::{put_word, word};

// Form kept: word by word, as the clauses cursor_in and written name them; no From, since neither the trait nor Cursor is of this crate.
pub(crate) fn read(words: &[u32]) -> Cursor
    ensures { cursor_of result ≡ cursor_in words.now }
{
    let base = word(words, 0, 0);
    let depth = word(words, 1, 0);
    let indexes = [
        word(words, 2, 0),
        word(words, 3, 0),
        word(words, 4, 0),
        word(words, 5, 0),
        word(words, 6, 0),
        word(words, 7, 0),
        word(words, 8, 0),
        word(words, 9, 0),
    ];
    let last = word(words, 10, 0);
    Cursor {
        base,
        depth,
        indexes,
        last,
    }
}

// Form kept: word by word, as the clauses cursor_in and written name them.
fn write(words: &mut [u32], cursor: Cursor)
    ensures { words.new ≡ written words.old (cursor_of cursor) }
{
    let indexes = cursor.indexes;
    put_word(words, 0, cursor.base);
    put_word(words, 1, cursor.depth);
    put_word(words, 2, indexes[0]);
    put_word(words, 3, indexes[1]);
    put_word(words, 4, indexes[2]);
    put_word(words, 5, indexes[3]);
    put_word(words, 6, indexes[4]);
    put_word(words, 7, indexes[5]);
    put_word(words, 8, indexes[6]);
    put_word(words, 9, indexes[7]);
    put_word(words, 10, cursor.last);
}

// A refused call leaves the words as they were: its number is above 0, so its word is 2^32 or more.
// Form kept: by the word told, as left_in says it: a call that is refused has a word of 2^32 or more.
pub(crate) fn keep(words: &mut [u32], told: u64, cursor: Cursor)
    ensures { words.new ≡ left_in words.old told (cursor_of cursor) }
{
    if told < 4294967296 {
        write(words, cursor);
    }
}
