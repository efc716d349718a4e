// Loads the sample file cut at every byte and every pair of bytes, ended at every byte, with every byte damaged and with a byte more: what
// is refused has to leave zeros, and what is accepted a set that saves to the file's bytes.
#![tactic(auto)]

mod room;
mod run;
mod trial;

use std::io;
use trial::{try_cuts, try_damage, try_ends, try_longer};
use trials::load::load;

// The bytes of the sample.
pub(crate) const SAMPLE: usize = 253;

// Byte k of a copy with another value.
fn changed(bytes: &[u8; SAMPLE], k: usize, value: u8) -> [u8; SAMPLE] {
    let mut other = *bytes;
    if k < SAMPLE {
        other[k] = value;
    }
    other
}

fn main(rt: HostRuntime) -> io::Result<()> {
    let stdout = rt.stdout();
    let mut bytes = [0u8; SAMPLE];
    load(&rt, b"sample.bin", &mut bytes);
    try_cuts(stdout, b"the sample", &bytes)?;
    try_cuts(stdout, b"a table of three bins", &changed(&bytes, 8, 3))?;
    try_cuts(stdout, b"a red slot in a list", &changed(&bytes, 68, 2))?;
    try_cuts(stdout, b"nine tables", &changed(&bytes, 0, 9))?;
    try_cuts(stdout, b"four slots", &changed(&bytes, 44, 4))?;
    try_cuts(stdout, b"six slots", &changed(&bytes, 44, 6))?;
    try_ends(stdout, &bytes)?;
    try_damage(stdout, &mut bytes)?;
    try_longer(stdout, &bytes)
}
