// A dump of an index: its bytes in, and what is printed of it out (docs/RULES.md, section 15).
#![tactic(auto)]

pub mod answer;
pub mod load;
pub mod measure;
pub mod rescue;
mod say;
mod ways;
pub mod write;
