// Damages sound trees and asks both checks: every word of one tree, every two slots of it, and the trees that only the full check refuses.
#![tactic(auto)]

mod build;
mod damage;
mod judge;
mod traps;
mod twos;

use std::io;

fn main(rt: HostRuntime) -> io::Result<()> {
    let stdout = rt.stdout();
    damage::run(stdout)?;
    twos::run(stdout)?;
    traps::run(stdout)
}
