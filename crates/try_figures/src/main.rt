// Counts the figures of an input with every kind of refusal, in two orders, cut and ended at every byte, and near a million sets: they have
// to be those that are counted apart, file by file, from a table.
#![tactic(auto)]

mod expect;
mod limits;
mod run;
mod trial;

use limits::{try_ranges, try_streams};
use std::io;
use trial::{more, try_cuts, try_ends, try_million, try_order};
use trials::load::load;
use trials::print::{name, say};

// The bytes of the two inputs.
pub(crate) const WEEK: usize = 35616;

pub(crate) const BACK: usize = 35518;

fn main(rt: HostRuntime) -> io::Result<()> {
    let stdout = rt.stdout();
    let mut week = [0u8; WEEK];
    let mut back = [0u8; BACK];
    load(&rt, b"week.bin", &mut week);
    load(&rt, b"back.bin", &mut back);
    let order = try_order(stdout, &week, &back)?;
    let cuts = try_cuts(stdout, &week)?;
    let ends = try_ends(stdout, &week)?;
    let million = try_million(stdout, &week)?;
    let ranges = try_ranges(stdout)?;
    let streams = try_streams(stdout)?;
    let all = more(
        more(more(order, cuts), more(ends, million)),
        more(ranges, streams),
    );
    name(stdout, b"differences ", all)?;
    say(stdout, b"\n")
}
