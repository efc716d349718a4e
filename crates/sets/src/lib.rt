// Frozen sets over lent slices (docs/RULES.md, section 7).
// The words: whether the slices fit, and what bins and headers say.
#![tactic(auto)]

pub mod bin;
pub mod fit;
// Acceptance.
pub mod accept;
mod below;
mod headers;
pub mod lists;
mod long;
mod trees;
// lookup: the slot that has a pair.
pub mod lookup;
// The walk: a cursor that start makes and next moves on.
mod cursor;
pub mod walk;
