// The live index over lent slices: a tree of names and its journal (docs/RULES.md, sections 1 to 6).
// What only reads: whether the slices fit, find, the source's check, the full check.
#![tactic(auto)]

pub mod check;
pub mod find;
pub mod fit;
pub mod sound;
// How a pair joins a tree and leaves it once that is allowed, and the journal's words.
pub mod fresh;
pub mod grow;
pub mod journal;
pub mod shrink;
// insert, remove and replace: a pair joins the tree, leaves it or has another place, and the journal takes a line.
pub mod insert;
pub mod present;
pub mod remove;
pub mod replace;
// rollback: what the journal's lines took in, out or elsewhere is taken back.
mod backup;
mod lines;
pub mod rollback;
