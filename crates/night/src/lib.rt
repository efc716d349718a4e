// Why a live tree is not sound: the first broken rule, the lowest slot that shows it, what is told with it and how the rule is broken
// there; and what can be saved of it.
#![tactic(auto)]

pub mod account;
mod below;
pub mod breach;
pub mod examine;
mod header;
pub mod salvage;
mod search;
mod slot;
mod ways;
pub mod why;
