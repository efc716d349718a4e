// The pair at a position in order, and the position of a pair, by the stored sizes.
#![tactic(auto)]

mod down;
pub mod kth;
pub mod position;
