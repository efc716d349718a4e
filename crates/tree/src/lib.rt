// What live trees and frozen sets share: routines that read one tree from its root.
#![tactic(auto)]

pub mod chain;
pub mod check;
pub mod find;
pub mod rules;
