// Moves bins of small sets, and holds every word that is left against what is to be expected, found by a second way.
#![tactic(auto)]

mod counts;
mod expect;
mod finishes;
mod judge;
mod make;
mod order;
mod print;
mod refuse;
mod trial;
mod words;

use std::io;

fn main(rt: HostRuntime) -> io::Result<()> {
    let stdout = rt.stdout();
    let mut counts = counts::none();
    trial::try_moves(&mut counts);
    refuse::try_refusals(&mut counts);
    finishes::try_finishes(&mut counts);
    print::report(stdout, &counts)
}
