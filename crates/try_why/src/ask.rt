// Asks why and the finder of a damaged tree, and counts what came of it. A tree's words are its names, and in one slice its cells, its
// header and its sizes.
use crate::finder::found;
use crate::rows::sum;
use night::account::Account;
use night::why::why;
use slots::{NULL, put_word, word};

// A kind of damage has a line of so many counts: tried, sound, T1 by a slot, T1 by the header, T2 to T8, differences.
// Form kept: the columns are numbers, since that of a rule is found from its number.
pub const COLUMNS: usize = 12;

const DIFFERENCES: u32 = 11;

// The line of all damages, behind those of the kinds.
pub const ALL: u32 = 28;

// The number told and the eight words of shown; none for a refusal.
fn told(names: &[u64], cells: &[u32], head: &[u32], sizes: &[u32]) -> Option<[u32; 9]> {
    match why(names, cells, head, sizes) {
        Ok(
            Account {
                rule,
                slot,
                other,
                one,
                two,
            },
        ) => Some([
            rule, slot, other, one.last, one.side, one.blacks, two.last, two.side, two.blacks,
        ]),
        Err(_) => None,
    }
}

// The count of what was told: T1 has one for slots and one for the header; what is no rule's number has none.
fn column(rule: u32, slot: u32) -> u32 {
    match rule {
        0 => 1,
        1 if slot == NULL => 3,
        1 => 2,
        2..=8 => rule + 2,
        _ => NULL,
    }
}

// One more in a column of a line.
fn count(counts: &mut [u32], line: u32, column: u32) {
    let k = line as usize * COLUMNS + column as usize;
    let more = sum(word(counts, k, 0), 1);
    put_word(counts, k, more);
}

// Counts an answer of why beside that of the finder in a line.
fn note(counts: &mut [u32], line: u32, ours: Option<[u32; 9]>, theirs: [u32; 9]) {
    count(counts, line, 0);
    let kind = column(theirs[0], theirs[1]);
    count(counts, line, kind);
    if ours != Some(theirs) {
        count(counts, line, DIFFERENCES);
    }
}

// Asks both of a tree of n slots. Words that are fewer are no tree's, and are not counted.
pub fn ask(counts: &mut [u32], line: u32, names: &[u64], words: &[u32], n: u32) {
    let slots = n as usize;
    let end = 7 * slots;
    if words.len() < end + 3 + slots {
        return;
    }
    let cells = &words[0..end];
    let head = &words[end..end + 3];
    let sizes = &words[end + 3..end + 3 + slots];
    let ours = told(names, cells, head, sizes);
    let theirs = found(names, cells, head, sizes, n);
    note(counts, line, ours, theirs);
    note(counts, ALL, ours, theirs);
}
