// A journal's words: word 0 is its length, then come six words to a line. Only this file knows a line's width.
ghost use Rattle.std.specs.Prelude.{◌≡◌, set, eqb};
ghost use Rattle.index_rules.specs.Index.{fits_journal, whole_lines, length_of, lines_of, line_word, line_made, lined, both_places};
ghost use Rattle.index_rules.specs.Rollback.{blanked};
ghost use Rattle.index.specs.Frees.{appended_if};

use slots::{MOST_LINES, put_word, word};

// The words of a line, by their place.
// Form kept: numbers, since the rules read word f of line k by its number (line_word), as the words of a slot are read.
pub const LINE_KIND: u32 = 0;

pub const LINE_HASH: u32 = 1;

pub const LINE_KEY: u32 = 2;

pub const LINE_PLACE: u32 = 3;

pub const LINE_PRIOR_HASH: u32 = 4;

pub const LINE_PRIOR_KEY: u32 = 5;

const LINE_WORDS: usize = 6;

// The kinds of a line.
// Form kept: numbers, since a line's kind is a word of the journal, which the C interface hands over, and any word may stand there.
pub const INSERT: u64 = 1;

pub const REMOVE: u64 = 2;

// A remove line that notes the pair before its own in the chain.
pub const NOTED_REMOVE: u64 = 4294967298;

pub const REPLACE: u64 = 3;

// So many places there are: a place is below it, and in the one word of a replace line the old place counts so many times.
pub const MOST_PLACES: u64 = 4294967296;

// How many lines there are.
pub fn length_of(lines: &[u64]) -> u64
    ensures { result ≡ length_of lines.now }
{
    word(lines, 0, 0)
}

// How many lines there is room for.
pub fn capacity_of(lines: &[u64]) -> usize
    ensures { result ≡ lines_of lines.now }
{
    let n = lines.len();
    if n < 1 {
        return 0;
    }
    (n - 1) / LINE_WORDS
}

// Whether there are as many words as so many lines have.
#[tactic(auto, unfolding(index_rules::specs::Index::whole_lines))]
pub(crate) fn is_whole(lines: &[u64]) -> bool
    ensures { result ≡ whole_lines lines.now }
{
    let capacity = capacity_of(lines);
    capacity <= MOST_LINES && lines.len() == 1 + LINE_WORDS * capacity
}

// Whether the words are a journal's: a capacity of 0 to 1,024 lines, and a length that does not pass it.
#[tactic(auto, unfolding(index_rules::specs::Index::fits_journal))]
pub fn fit_journal(lines: &[u64]) -> bool
    ensures { result ≡ fits_journal lines.now }
{
    is_whole(lines) && length_of(lines) <= capacity_of(lines) as u64
}

// Whether no line is left.
pub fn is_full(lines: &[u64]) -> bool
    ensures { result ≡ eqb (length_of lines.now) (lines_of lines.now) }
{
    length_of(lines) == capacity_of(lines) as u64
}

// Word f of line k; 0 where there is no such word.
pub fn line_word(lines: &[u64], k: usize, f: u32) -> u64
    ensures { result ≡ line_word lines.now k f }
{
    if k < lines.len() {
        word(lines, 1 + LINE_WORDS * k + f as usize, 0)
    } else {
        0
    }
}

// Line k with these six words; nothing where there is no such line.
#[tactic(auto, unfolding(index_rules::specs::Index::lined))]
fn put_line(
    lines: &mut [u64],
    k: usize,
    kind: u64,
    hash: u64,
    key: u64,
    place: u64,
    prehash: u64,
    prekey: u64,
)
    ensures { lines.new ≡ lined lines.old k (line_made kind hash key place prehash prekey) }
{
    if lines.len() <= k {
        return;
    }
    let at = 1 + LINE_WORDS * k;
    put_word(lines, at, kind);
    put_word(lines, at + 1, hash);
    put_word(lines, at + 2, key);
    put_word(lines, at + 3, place);
    put_word(lines, at + 4, prehash);
    put_word(lines, at + 5, prekey);
}

// Each accepted insert, remove or replace appends a line. Nothing where the length passes the limit.
#[tactic(auto, unfolding(index_rules::specs::Index::appended))]
pub fn append(
    lines: &mut [u64],
    kind: u64,
    hash: u64,
    key: u64,
    place: u64,
    prehash: u64,
    prekey: u64,
)
    ensures { lines.new ≡ appended_if lines.old (line_made kind hash key place prehash prekey) }
{
    let length = length_of(lines);
    if (MOST_LINES as u64) < length {
        return;
    }
    put_line(
        lines,
        length as usize,
        kind,
        hash,
        key,
        place,
        prehash,
        prekey,
    );
    put_word(lines, 0, length + 1);
}

// Both places of a replace line in one word: the new place, and the old one above its 32 bits.
pub(crate) fn both_places(new: u32, old: u32) -> u64
    ensures { result ≡ both_places new old }
{
    new as u64 + MOST_PLACES * old as u64
}

// So many lines from m on are cleared to zero.
fn blank(lines: &mut [u64], m: u32, count: u32)
    ensures { lines.new ≡ blanked count lines.old m }
{
    for c in (0..count).rev() {
        put_line(lines, m as usize + c as usize, 0, 0, 0, 0, 0, 0);
    }
}

// So many lines from m on are cleared to zero, and the length is m.
pub fn cut(lines: &mut [u64], m: u32, count: u32)
    ensures { lines.new ≡ set (blanked count lines.old m) 0 m }
{
    blank(lines, m, count);
    put_word(lines, 0, m as u64);
}
