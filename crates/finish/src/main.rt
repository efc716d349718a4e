// finish: reads a set's file from standard input, moves every bin of every table but the last, and writes the file of what is left to
// standard output; what came of it goes to standard error.
#![tactic(auto)]

use finisher::answer::answer;
use std::io;
use std::io::{Stderr, Stdin, Stdout};
use trials::load::fill;

// One byte more than the longest file has, so that a longer one is seen to be longer.
const ROOM: usize = 16 + 4 * 8 + 4 * 8160 + 12 * 4096 + 41 * 4096 + 1;

// Writes the first so many bytes of a buffer.
// Form kept: salvage has these lines too; a public routine for a part of a slice and a write is no plainer.
fn put(to: &impl Print, bytes: &[u8], most: usize) -> io::Result<()> {
    match bytes.get(..most) {
        Some(front) => to.write_all(front),
        None => Ok(()),
    }
}

// Reads a set's file, and writes the file of what is left and what came of it.
fn serve(
    mut stdin: Stdin,
    stdout: Stdout,
    stderr: Stderr,
    bytes: &mut [u8],
    out: &mut [u8],
    text: &mut [u8],
) -> io::Result<()> {
    let got = fill(&mut stdin, bytes)?;
    let done = answer(&bytes[..got], out, text);
    put(&stdout, out, done.written)?;
    put(&stderr, text, done.said)
}

fn main(rt: HostRuntime) -> io::Result<()> {
    let mut bytes = [0u8; ROOM];
    let mut out = [0u8; ROOM];
    let mut text = [0u8; 128];
    serve(
        rt.stdin(),
        rt.stdout(),
        rt.stderr(),
        &mut bytes,
        &mut out,
        &mut text,
    )
}
