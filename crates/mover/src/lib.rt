// One bin of a frozen set moved to the next table (docs/RULES.md, section 17).
// What is read first: the halves, and the headers that they get.
#![tactic(auto)]

mod halves;
mod headers;
// What is written: each half strung, and laid as a list or as a tree.
mod laying;
mod passes;
// The move, and all bins moved.
pub mod finishing;
pub mod moving;
