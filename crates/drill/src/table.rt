// What a tree holds and lists: a row of 96 words. The first 48 are key by key, each the place of a key and one more, or 0 where the key is
// not there; then come the keys along the chain, each one more than it is, and 0 past the last.
// Form kept: 0 for none, since a row is 96 words of one slice by the rule of no heap, which are written and compared as they stand.
use crate::steps::counted;
use index::find::find;
use slots::{KEY, NEXT, NULL, PLACE, get, name, put};
use tree::find::Found;

pub const KEYS: u32 = 48;

const ROW: u32 = 96;

// The words of a line, and of a journal of 512 of them.
const LINE_WORDS: u32 = 6;

const JOURNAL_WORDS: u32 = 1 + 512 * LINE_WORDS;

// The place of a key and one more; 0 where it is not there.
fn held(names: &[u64], cells: &[u32], head: &[u32], key: u32) -> u32 {
    match find(names, cells, head, (key / 4) as u64, key as u64) {
        Ok(Found::At(slot, _)) => get(cells, slot, PLACE).wrapping_add(1),
        _ => 0,
    }
}

// The word for a key in row m.
fn word_of(m: u32, key: u32) -> u32 {
    m % 4096 * ROW + key % KEYS
}

// The word for a position of the chain in row m.
fn listed_word(m: u32, i: u32) -> u32 {
    m % 4096 * ROW + KEYS + i % KEYS
}

// The key of a slot of the chain and one more; 0 past the last.
fn listed(names: &[u64], x: u32) -> u32 {
    if x == NULL {
        return 0;
    }
    ((name(names, x, KEY) % 4294967296) as u32).wrapping_add(1)
}

// Notes in row m what the tree lists, from first by next.
fn note_listing(rows: &mut [u32], m: u32, names: &[u64], cells: &[u32], head: &[u32]) {
    let mut x = get(head, 0, 1);
    for i in 0..KEYS {
        put(rows, 0, listed_word(m, i), listed(names, x));
        x = get(cells, x, NEXT);
    }
}

// Notes in row m what the tree holds, and what it lists.
pub fn note(rows: &mut [u32], m: u32, names: &[u64], cells: &[u32], head: &[u32]) {
    note_held(rows, m, names, cells, head);
    note_listing(rows, m, names, cells, head);
}

// Notes in row m what the tree holds.
fn note_held(rows: &mut [u32], m: u32, names: &[u64], cells: &[u32], head: &[u32]) {
    for key in 0..KEYS {
        put(rows, 0, word_of(m, key), held(names, cells, head, key));
    }
}

// Whether the tree holds and lists what row m says.
pub fn same(rows: &[u32], m: u32, names: &[u64], cells: &[u32], head: &[u32]) -> bool {
    let entries = same_held(rows, m, names, cells, head);
    let listing = same_listed(rows, m, names, cells, head);
    entries && listing
}

// Whether the tree lists what row m says, from first by next, and nothing else.
fn same_listed(rows: &[u32], m: u32, names: &[u64], cells: &[u32], head: &[u32]) -> bool {
    let mut x = get(head, 0, 1);
    for i in 0..KEYS {
        if get(rows, 0, listed_word(m, i)) != listed(names, x) {
            return false;
        }
        x = get(cells, x, NEXT);
    }
    x == NULL
}

// Whether the tree holds what row m says, and by its own count nothing else.
fn same_held(rows: &[u32], m: u32, names: &[u64], cells: &[u32], head: &[u32]) -> bool {
    let mut count: u32 = 0;
    for key in 0..KEYS {
        let word = held(names, cells, head, key);
        if get(rows, 0, word_of(m, key)) != word {
            return false;
        }
        count = counted(count, word != 0);
    }
    count == get(head, 0, 2)
}

// What word k of a journal has to be once all lines from m on are cut off.
fn kept(old: &[u64], m: u32, k: u32) -> u64 {
    if k == 0 {
        return m as u64;
    }
    if m % 4096 * LINE_WORDS < k {
        return 0;
    }
    name(old, 0, k)
}

// Whether the lines are the old ones up to mark m, and nothing after it.
pub fn cut_at(lines: &[u64], old: &[u64], m: u32) -> bool {
    (0..JOURNAL_WORDS).all(|k| name(lines, 0, k) == kept(old, m, k))
}
