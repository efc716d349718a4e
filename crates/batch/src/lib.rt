// Many calls on the live index, made in order after one check.
#![tactic(auto)]

pub mod batch;
mod calls;
mod make;
