// The section reader: an upload is read in chunks into the live index (docs/RULES.md, section 12).
#![tactic(auto)]

pub mod reply;
pub mod words;
// The word of a note, for those who keep a reader as eight words.
pub mod notes;
// What one byte does: to the reader alone, and to the index.
mod bytes;
mod enter;
mod steps;
// start, chunk and end.
pub mod read;
