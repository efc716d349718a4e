// What `./finish` writes of a set's file (docs/RULES.md, section 17).
#![tactic(auto)]

pub mod answer;
mod cut;
