// salvage: reads a dump of an index from standard input, and writes the dump of a second index with all that can be saved of it to
// standard output; what was lost goes to standard error.
#![tactic(auto)]

use dump::rescue::rescue;
use std::io;
use std::io::{Stderr, Stdin, Stdout};
use trials::load::fill;

// One byte more than the longest dump has, so that a longer one is seen to be longer.
const ROOM: usize = 28 + 48 * 4096 + 48 * 1024 + 1;

// Writes the first so many bytes of a buffer.
// Form kept: finish has these lines too; a public routine for a part of a slice and a write is no plainer.
fn put(to: &impl Print, bytes: &[u8], most: usize) -> io::Result<()> {
    match bytes.get(..most) {
        Some(front) => to.write_all(front),
        None => Ok(()),
    }
}

// Reads a dump, and writes the second one and what was lost.
fn serve(
    mut stdin: Stdin,
    stdout: Stdout,
    stderr: Stderr,
    bytes: &mut [u8],
    out: &mut [u8],
    text: &mut [u8],
) -> io::Result<()> {
    let got = fill(&mut stdin, bytes)?;
    let saved = rescue(&bytes[..got], out, text);
    put(&stdout, out, saved.dumped)?;
    put(&stderr, text, saved.said)
}

// Room for what is printed. Its length is large, and a proof that has the zeros before it counts them: here it only has that there are so
// many.
// Form kept: each program that needs such a room has its own, since a public one would owe a claim that counts its zeros.
fn text_room() -> [u8; 524288] {
    [0; 524288]
}

fn main(rt: HostRuntime) -> io::Result<()> {
    let mut bytes = [0u8; ROOM];
    let mut out = [0u8; ROOM];
    let mut text = text_room();
    serve(
        rt.stdin(),
        rt.stdout(),
        rt.stderr(),
        &mut bytes,
        &mut out,
        &mut text,
    )
}
