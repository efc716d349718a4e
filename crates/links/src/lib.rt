// One tree's links, written: how a slot is hung and how it leaves, each with the source's balancing, and the sizes beside them. Rotations
// and balancing are private, as in the source.
#![tactic(auto)]

mod balance;
pub mod hang;
mod rotate;
mod sizes;
mod spot;
pub mod unlink;
