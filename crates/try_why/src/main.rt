// Damages small trees, and holds what why tells of each against what a second finder tells, written apart.
#![tactic(auto)]

mod ask;
mod finder;
mod print;
mod rows;
mod tests;
mod trees;
mod twos;
mod ways;
mod words;

use std::io;

fn main(rt: HostRuntime) -> io::Result<()> {
    let stdout = rt.stdout();
    let mut counts = [0u32; 348];
    trees::try_small(&mut counts);
    trees::try_large(&mut counts);
    print::report(stdout, &counts)
}
