// The library's entry points for Rust and C: a slice is a pointer and a length, the answer one word, value + 2^32 * number.
// Form kept: each entry point by itself, since each is a name of the C interface with slices of its own.
#![tactic(auto)]

mod cursor;
pub mod files;
pub mod frozen;
pub mod moves;
pub mod reads;
pub mod reasons;
pub mod saves;
pub mod totals;
pub mod uploads;
mod words;
pub mod writes;
