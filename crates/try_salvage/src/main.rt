// Damages small trees, salvages what is left of each into a cleared tree, and holds it against what is to be kept, found by a second way.
#![tactic(auto)]

mod ask;
mod counts;
mod judge;
mod naive;
mod print;
mod refuse;
mod trees;
mod twos;
mod words;

use std::io;

fn main(rt: HostRuntime) -> io::Result<()> {
    let stdout = rt.stdout();
    let mut counts = [0u32; 152];
    trees::try_small(&mut counts);
    trees::try_large(&mut counts);
    print::report(stdout, &counts)
}
