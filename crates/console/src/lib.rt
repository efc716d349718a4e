// The script over a lent index (docs/RULES.md, section 9): chunks of input in, answers out.
// What a line means, and how numbers and words are written.
#![tactic(auto)]

pub mod fill;
pub mod paper;
pub mod read;
// What a line asks for is done and answered.
mod answer;
pub mod feed;
// What an upload came to is printed.
pub mod receipt;
