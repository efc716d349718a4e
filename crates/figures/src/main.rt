// figures: reads sets' files from standard input, each after its length, in chunks of up to 65,536 bytes, and prints the figures over all
// of them. On a terminal it tells on standard error how many sets are counted, every 10,000 sets.
#![tactic(auto)]

use std::io;
use std::io::{IsTerminal, Read, Stderr, Stdin, Stdout};
use tally::figure::Figured;
use tally::stream::Stream;
use tally::tell::tell;

// "slices of 8, 1,024, 768, 1,024 and 3,584 words"
const LENGTHS: usize = 8;

const BINS: usize = 1024;

const HEADS: usize = 768;

const NAMES: usize = 1024;

const CELLS: usize = 3584;

const TOTALS: usize = 39;

// The lines of progress are so many sets apart.
const APART: u32 = 10000;

// The sets that a call says are counted; 0 where it is refused.
fn sets_of(figured: Figured) -> u32 {
    figured.reply.unwrap_or(0)
}

// A line of progress for each ten thousand that is reached, and how many were told.
fn progress(stderr: Stderr, told: u32, sets: u32) -> io::Result<u32> {
    let reached = sets / APART;
    for k in told..reached {
        stderr.write_all(b"sets ")?;
        stderr.println((k as u64 + 1) * APART as u64)?;
    }
    Ok(told.max(reached))
}

// Progress is told on a terminal alone.
fn progress_if(stderr: Stderr, terminal: bool, told: u32, sets: u32) -> io::Result<u32> {
    if terminal {
        return progress(stderr, told, sets);
    }
    Ok(told)
}

// Takes all of the input. A proved loop has to end, and nothing says that the input does: the turns are counted up to a number that no run
// comes to.
// Form kept: the slices stand apart, as the library's calls take them; a struct of them would be taken apart again at each call.
fn serve(
    mut stdin: Stdin,
    stderr: Stderr,
    stream: Stream,
    chunk: &mut [u8],
    lengths: &mut [u32; LENGTHS],
    bins: &mut [u32; BINS],
    heads: &mut [u32; HEADS],
    names: &mut [u64; NAMES],
    cells: &mut [u32; CELLS],
    totals: &mut [u64; TOTALS],
    terminal: bool,
) -> io::Result<Stream> {
    let mut kept = stream;
    let mut told: u32 = 0;
    for _ in 0..u64::MAX {
        let n = stdin.read(chunk)?;
        if n == 0 {
            return Ok(kept);
        }
        let figured = kept.chunk(lengths, bins, heads, names, cells, totals, &chunk[..n]);
        told = progress_if(stderr, terminal, told, sets_of(figured))?;
        kept = figured.stream;
    }
    Ok(kept)
}

// The input has ended: the rows are printed.
fn finish(
    stdout: Stdout,
    stream: Stream,
    totals: &mut [u64; TOTALS],
    out: &mut [u8],
) -> io::Result<()> {
    let figured = stream.end(totals);
    let last = figured.stream;
    let written = tell(totals, last.over, out);
    stdout.write_all(&out[..written])
}

fn main(rt: HostRuntime) -> io::Result<()> {
    let mut lengths = [0u32; LENGTHS];
    let mut bins = [0u32; BINS];
    let mut heads = [0u32; HEADS];
    let mut names = [0u64; NAMES];
    let mut cells = [0u32; CELLS];
    let mut totals = [0u64; TOTALS];
    let mut chunk = [0u8; 65536];
    let mut out = [0u8; 2048];
    let stderr = rt.stderr();
    let terminal = stderr.is_terminal();
    let stream = serve(
        rt.stdin(),
        stderr,
        Stream::start(),
        &mut chunk,
        &mut lengths,
        &mut bins,
        &mut heads,
        &mut names,
        &mut cells,
        &mut totals,
        terminal,
    )?;
    finish(rt.stdout(), stream, &mut totals, &mut out)
}
