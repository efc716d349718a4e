// The counts: a line to each kind of damage.
use slots::{put_word, word};

// A line has so many counts.
// Form kept: the columns are numbers, since those of what is kept and lost are found from the words of the report.
pub const COLUMNS: usize = 8;

pub const TRIED: u32 = 0;

pub const REFUSED: u32 = 1;

// The slots kept, and behind this column those that are free, of unknown state and repeats.
pub const KEPT: u32 = 2;

// The entries of the tree before the damage that the second tree has not.
pub const LOST: u32 = 6;

pub const DIFFERENCES: u32 = 7;

// The line of all damages, behind those of the kinds.
pub const ALL: u32 = 18;

// The sum of two counts, which do not come near 32 bits.
pub fn sum(a: u32, b: u32) -> u32 {
    std::num::wrapping_add_u32(a, b)
}

// 1 for yes, 0 for no.
pub fn one_if(yes: bool) -> u32 {
    yes as u32
}

// So many more in a column of a line.
fn add(counts: &mut [u32], line: u32, column: u32, more: u32) {
    let k = line as usize * COLUMNS + column as usize;
    let count = sum(word(counts, k, 0), more);
    put_word(counts, k, count);
}

// So many more in a column of a line, and of the line of all.
pub fn count(counts: &mut [u32], line: u32, column: u32, more: u32) {
    add(counts, line, column, more);
    add(counts, ALL, column, more);
}
