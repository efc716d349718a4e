// Walks whole frozen sets entry by entry, looks pairs up in them, and tries words and cursors that lookup and next refuse.
#![tactic(auto)]

mod ask;
mod bounds;
mod broken;
mod say;
mod whole;

use std::io;

fn main(rt: HostRuntime) -> io::Result<()> {
    let stdout = rt.stdout();
    whole::worked(stdout)?;
    whole::mixed(stdout)?;
    whole::deep(stdout)?;
    broken::words(stdout)?;
    broken::widest(stdout)?;
    broken::headers(stdout)?;
    broken::links(stdout)?;
    bounds::cursors(stdout)?;
    bounds::tables(stdout)
}
