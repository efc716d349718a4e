// The script program: reads calls from standard input and writes their answers, over a tree of 512 slots and a journal of 512
// lines in fixed memory.
#![tactic(auto)]

use console::feed::{Line, blank, feed, finish};
use index::fresh::fresh;
use std::io;
use std::io::{Read, Stdin, Stdout};

// The words of the journal: its length, and six to each of 512 lines.
const JOURNAL_WORDS: usize = 1 + 6 * 512;

// Answers all of a chunk, a buffer at a time.
// Form kept: the slices stand apart, as the library's calls take them; a struct of them would be taken apart again at each call.
fn answer(
    stdout: Stdout,
    line: Line,
    chunk: &[u8],
    names: &mut [u64],
    cells: &mut [u32],
    head: &mut [u32],
    sizes: &mut [u32],
    lines: &mut [u64],
    out: &mut [u8],
) -> io::Result<Line> {
    let mut kept = line;
    let mut rest = chunk;
    while !rest.is_empty() {
        let fed = feed(kept, rest, names, cells, head, sizes, lines, out);
        stdout.write_all(&out[..fed.written])?;
        kept = fed.line;
        if fed.taken == 0 {
            return Ok(kept);
        }
        rest = &rest[fed.taken..];
    }
    Ok(kept)
}

// Reads until the input ends. A proved loop has to end, and nothing says that the input does: the turns are counted up to a number that
// no run comes to.
fn serve(
    mut stdin: Stdin,
    stdout: Stdout,
    chunk: &mut [u8],
    names: &mut [u64],
    cells: &mut [u32],
    head: &mut [u32],
    sizes: &mut [u32],
    lines: &mut [u64],
    out: &mut [u8],
) -> io::Result<Line> {
    let mut kept = blank();
    for _ in 0..u64::MAX {
        let n = stdin.read(chunk)?;
        if n == 0 {
            return Ok(kept);
        }
        kept = answer(
            stdout,
            kept,
            &chunk[..n],
            names,
            cells,
            head,
            sizes,
            lines,
            out,
        )?;
    }
    Ok(kept)
}

// The input has ended: the last line is answered, if it has no newline.
fn close(
    stdout: Stdout,
    line: Line,
    names: &mut [u64],
    cells: &mut [u32],
    head: &mut [u32],
    sizes: &mut [u32],
    lines: &mut [u64],
    out: &mut [u8],
) -> io::Result<()> {
    let fed = finish(line, names, cells, head, sizes, lines, out);
    stdout.write_all(&out[..fed.written])
}

// Room for what is printed. Its length is large, and a proof that has the zeros before it counts them: here it only has that there are so
// many.
// Form kept: each program that needs such a room has its own, since a public one would owe a claim that counts its zeros.
fn text_room() -> [u8; 524288] {
    [0; 524288]
}

fn main(rt: HostRuntime) -> io::Result<()> {
    let mut names = [0u64; 1024];
    let mut cells = [0u32; 3584];
    let mut head = [0u32; 3];
    let mut sizes = [0u32; 512];
    let mut lines = [0u64; JOURNAL_WORDS];
    let mut out = text_room();
    let mut chunk = [0u8; 65536];
    let _ = fresh(&mut names, &mut cells, &mut head, &mut sizes, &mut lines);
    let line = serve(
        rt.stdin(),
        rt.stdout(),
        &mut chunk,
        &mut names,
        &mut cells,
        &mut head,
        &mut sizes,
        &mut lines,
        &mut out,
    )?;
    close(
        rt.stdout(),
        line,
        &mut names,
        &mut cells,
        &mut head,
        &mut sizes,
        &mut lines,
        &mut out,
    )
}
