// What the programs share.
// Input through the console, held against what is expected; two indexes compared; the first words of a slice.
#![tactic(auto)]

pub mod part;
pub mod play;
pub mod same;
// What is read from files and printed.
pub mod load;
pub mod print;
