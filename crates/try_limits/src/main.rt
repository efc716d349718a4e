// Runs the index at its limits: find on words at the edge of what it refuses, insert, remove, replace and rollback on the smallest and the
// largest tree and journal, rollback on journals that do not fit, all of them on words that are unfit and trees that are not sound, and
// kth and position. Prints each answer.
#![tactic(auto)]

mod brim;
mod calls;
mod contents;
mod counts;
mod limits;
mod misfits;
mod pairs;
mod ranked;
mod refusals;
mod words;

use std::io;

fn main(rt: HostRuntime) -> io::Result<()> {
    let stdout = rt.stdout();
    limits::run(stdout)?;
    brim::run(stdout)?;
    misfits::run(stdout)?;
    refusals::run(stdout)?;
    ranked::run(stdout)
}
