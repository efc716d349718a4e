// why: reads a dump of an index from standard input, and prints that its tree is sound or how the first broken rule is broken.
#![tactic(auto)]

use dump::answer::answer;
use std::io;
use std::io::{Stdin, Stdout};
use trials::load::fill;

// One byte more than the longest dump has, so that a longer one is seen to be longer.
const ROOM: usize = 28 + 48 * 4096 + 48 * 1024 + 1;

// Reads a dump, and prints what is said of it.
fn serve(mut stdin: Stdin, stdout: Stdout, bytes: &mut [u8], out: &mut [u8]) -> io::Result<()> {
    let got = fill(&mut stdin, bytes)?;
    let written = answer(&bytes[..got], out);
    stdout.write_all(&out[..written])
}

// Room for what is printed. Its length is large, and a proof that has the zeros before it counts them: here it only has that there are so
// many.
// Form kept: each program that needs such a room has its own, since a public one would owe a claim that counts its zeros.
fn text_room() -> [u8; 524288] {
    [0; 524288]
}

fn main(rt: HostRuntime) -> io::Result<()> {
    let mut bytes = [0u8; ROOM];
    let mut out = text_room();
    serve(rt.stdin(), rt.stdout(), &mut bytes, &mut out)
}
