// What is printed of a set's file that was loaded (docs/PROGRAMS.md).
#![tactic(auto)]

mod lines;
pub mod tell;
