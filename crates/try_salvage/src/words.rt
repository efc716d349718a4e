// Every word of a tree set to each of several values, one at a time.
use crate::ask::ask;
use slots::{NULL, put_word, word};

// How many values a word is set to.
pub const VALUES: usize = 12;

// Small numbers, which are slots and states too, null, the last of n slots and one past it, one more and one less than the word was, 2^31,
// and the largest that is not null.
pub fn values(old: u32, n: u32) -> [u32; VALUES] {
    let last = std::num::wrapping_sub_u32(n, 1);
    let more = std::num::wrapping_add_u32(old, 1);
    let less = std::num::wrapping_sub_u32(old, 1);
    [
        0, 1, 2, 3, NULL, last, n, more, less, 4, 2147483648, 4294967294,
    ]
}

// Of a part of a name small numbers too, null and those of the slots; three more and three less than it was, which another name here has;
// one more, the largest, and 2^32.
pub fn name_values(old: u64, n: u32) -> [u64; VALUES] {
    let last = std::num::wrapping_sub_u32(n, 1) as u64;
    let third = std::num::wrapping_add_u64(old, 3);
    let before = std::num::wrapping_sub_u64(old, 3);
    let more = std::num::wrapping_add_u64(old, 1);
    [
        0,
        1,
        2,
        3,
        NULL as u64,
        last,
        n as u64,
        third,
        before,
        more,
        18446744073709551615,
        4294967296,
    ]
}

// Sets each word of the names to each value, asks, and restores it. What is lent to be damaged is as the tree before the damage.
pub fn try_names(counts: &mut [u32], names0: &[u64], cells0: &[u32], names: &mut [u64], n: u32) {
    for k in 0..2 * n as usize {
        let old = word(names, k, 0);
        for value in name_values(old, n) {
            put_word(names, k, value);
            ask(counts, (1 + k % 2) as u32, names0, cells0, names, cells0, n);
        }
        put_word(names, k, old);
    }
}

// The same of each word of the cells.
pub fn try_cells(counts: &mut [u32], names0: &[u64], cells0: &[u32], cells: &mut [u32], n: u32) {
    for k in 0..7 * n as usize {
        let old = word(cells, k, NULL);
        for value in values(old, n) {
            put_word(cells, k, value);
            ask(counts, (3 + k % 7) as u32, names0, cells0, names0, cells, n);
        }
        put_word(cells, k, old);
    }
}
