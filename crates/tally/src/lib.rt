// Figures over many sets (docs/RULES.md, section 18): a set tallied into lent totals, and an input of many sets.
#![tactic(auto)]

mod add;
pub mod tally;
mod totals;
// Where an input stands, what its bytes do, and start, chunk and end.
pub mod figure;
mod input;
pub mod stream;
// What is printed of the figures.
pub mod tell;
