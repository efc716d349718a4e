// A set's file (docs/RULES.md, section 16): its bytes, save, and the loader.
#![tactic(auto)]

pub mod loader;
mod put;
pub mod reply;
pub mod save;
// The word of a note, for those who keep a loader as eight words.
pub mod notes;
// What one byte does, and what a chunk's whole words do, to the loader and the slices.
mod bytes;
mod clear;
mod room;
mod runs;
// start, chunk and end.
pub mod load;
// The set that the counts cut out of the slices.
pub mod cut;
