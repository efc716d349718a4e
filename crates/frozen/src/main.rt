// frozen: reads a set's file from standard input in chunks of up to 65,536 bytes, each section into the slice of the largest set that takes
// it, and prints the set's counts and entries, or the number of the refusal.
#![tactic(auto)]

use file::loader::Loader;
use listing::tell::tell;
use slots::{MOST_CELLS, MOST_NAMES};
use std::io;
use std::io::{Read, Stdin, Stdout};

// The most tables, bins and words of headers that a set has.
const MOST_TABLES: usize = 8;

const MOST_BINS: usize = 8160;

const MOST_HEADS: usize = 3 * 4096;

// Loads all of the input, refused or not. A proved loop has to end, and nothing says that the input does: the turns are counted up to a
// number that no run comes to.
// Form kept: the slices stand apart, as the library's calls take them; a struct of them would be taken apart again at each call.
fn serve(
    mut stdin: Stdin,
    loader: Loader,
    chunk: &mut [u8],
    lengths: &mut [u32; MOST_TABLES],
    bins: &mut [u32; MOST_BINS],
    heads: &mut [u32; MOST_HEADS],
    names: &mut [u64; MOST_NAMES],
    cells: &mut [u32; MOST_CELLS],
) -> io::Result<Loader> {
    let mut kept = loader;
    for _ in 0..u64::MAX {
        let n = stdin.read(chunk)?;
        if n == 0 {
            return Ok(kept);
        }
        let read = kept.chunk(lengths, bins, heads, names, cells, &chunk[..n]);
        let next = read.loader;
        kept = next;
    }
    Ok(kept)
}

// The file has ended: what the end call answers is printed.
fn finish(
    stdout: Stdout,
    loader: Loader,
    lengths: &mut [u32; MOST_TABLES],
    bins: &mut [u32; MOST_BINS],
    heads: &mut [u32; MOST_HEADS],
    names: &mut [u64; MOST_NAMES],
    cells: &mut [u32; MOST_CELLS],
    out: &mut [u8],
) -> io::Result<()> {
    let load = loader.end(lengths, bins, heads, names, cells);
    let written = tell(load, lengths, bins, heads, names, cells, out);
    stdout.write_all(&out[..written])
}

// Room for what is printed. Its length is large, and a proof that has the zeros before it counts them: here it only has that there are so
// many.
// Form kept: each program that needs such a room has its own, since a public one would owe a claim that counts its zeros.
fn text_room() -> [u8; 524288] {
    [0; 524288]
}

fn main(rt: HostRuntime) -> io::Result<()> {
    let mut lengths = [0u32; MOST_TABLES];
    let mut bins = [0u32; MOST_BINS];
    let mut heads = [0u32; MOST_HEADS];
    let mut names = [0u64; MOST_NAMES];
    let mut cells = [0u32; MOST_CELLS];
    let mut chunk = [0u8; 65536];
    let mut out = text_room();
    let started = Loader::start();
    let loader = serve(
        rt.stdin(),
        started.loader,
        &mut chunk,
        &mut lengths,
        &mut bins,
        &mut heads,
        &mut names,
        &mut cells,
    )?;
    finish(
        rt.stdout(),
        loader,
        &mut lengths,
        &mut bins,
        &mut heads,
        &mut names,
        &mut cells,
        &mut out,
    )
}
