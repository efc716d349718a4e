// What is read before a source runs: the numbers of a text, and where the calls of a script start.
use crate::steps::{line_end, more};
use slots::put_name;

// The decimal numbers of a text, a word for each: a byte that is no digit ends one. How many there are.
// Form kept: the room and how much of it is used stand side by side by the rule of no heap (nothing is allocated in the programs).
pub fn read(text: &[u8], words: &mut [u64]) -> u32 {
    let mut count: u32 = 0;
    let mut value: u64 = 0;
    for byte in text {
        if byte.is_ascii_digit() {
            value = value.wrapping_mul(10).wrapping_add(u64::from(byte % 16));
        } else {
            put_name(words, 0, count, value);
            count = more(count, 1);
            value = 0;
        }
    }
    count
}

// The byte at which each line of a script starts, and behind the last its length. How many lines there are.
pub fn starts(script: &[u8], words: &mut [u64]) -> u32 {
    let mut count: u32 = 0;
    let mut at = 0;
    while at < script.len() {
        put_name(words, 0, count, at as u64);
        count = more(count, 1);
        at = line_end(script, at);
    }
    put_name(words, 0, count, at as u64);
    count
}
