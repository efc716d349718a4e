// Every word of a tree set to each of several values, one at a time.
use crate::ask::ask;
use slots::{NULL, put_word, word};

// Small numbers, which are slots and states too, null, the last of n slots and one past it, one more and one less than the word was, and
// the largest that is not null. One more than null is 0.
fn values(old: u32, n: u32) -> [u32; 10] {
    let last = std::num::wrapping_sub_u32(n, 1);
    let more = std::num::wrapping_add_u32(old, 1);
    let less = std::num::wrapping_sub_u32(old, 1);
    [0, 1, 2, 3, NULL, last, n, more, less, 4294967294]
}

// The same of a part of a name, whose largest has 64 bits.
fn name_values(old: u64, n: u32) -> [u64; 10] {
    let last = std::num::wrapping_sub_u32(n, 1);
    let more = std::num::wrapping_add_u64(old, 1);
    let less = std::num::wrapping_sub_u64(old, 1);
    [
        0,
        1,
        2,
        3,
        NULL as u64,
        last as u64,
        n as u64,
        more,
        less,
        18446744073709551615,
    ]
}

// The line of word k: a field of a slot, a part of the header, or a size.
// Form kept: a number, since it is found from the number of the field, and is a place in the table of counts.
fn line_of(n: u32, k: usize) -> u32 {
    let end = 7 * n as usize;
    if k < end {
        return (2 + k % 7) as u32;
    }
    if k - end < 3 {
        return (9 + (k - end)) as u32;
    }
    12
}

// Sets each word of the names to each value, asks, and restores it.
pub fn try_names(counts: &mut [u32], names: &mut [u64], words: &[u32], n: u32) {
    for k in 0..2 * n as usize {
        let old = word(names, k, 0);
        for value in name_values(old, n) {
            put_word(names, k, value);
            ask(counts, 1, names, words, n);
        }
        put_word(names, k, old);
    }
}

// Sets each other word to each value, asks, and restores it.
pub fn try_words(counts: &mut [u32], names: &[u64], words: &mut [u32], n: u32) {
    for k in 0..8 * n as usize + 3 {
        let old = word(words, k, NULL);
        for value in values(old, n) {
            put_word(words, k, value);
            ask(counts, line_of(n, k), names, words, n);
        }
        put_word(words, k, old);
    }
}
