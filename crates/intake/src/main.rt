// intake: reads an upload from standard input in chunks of up to 65,536 bytes into an empty index of 4,096 slots and 1,024 lines, and
// prints the names that it holds then, or the number of the refusal.
#![tactic(auto)]

use console::feed::LONGEST;
use console::receipt::receipt;
use index::fresh::fresh;
use reader::words::Reader;
use slots::answer::Answers;
use slots::{MOST_CELLS, MOST_NAMES, MOST_SLOTS};
use std::io;
use std::io::{Read, Stdin, Stdout};

// The words of the journal: its length, and six to each of 1,024 lines.
const JOURNAL_WORDS: usize = 1 + 6 * 1024;

// Feeds the input up to its end or to the first refusal, which the end call gives again. A proved loop has to end, and nothing says that
// the input does: the turns are counted up to a number that no run comes to.
// Form kept: the slices stand apart, as the library's calls take them; a struct of them would be taken apart again at each call.
fn serve(
    mut stdin: Stdin,
    reader: Reader,
    chunk: &mut [u8],
    names: &mut [u64; MOST_NAMES],
    cells: &mut [u32; MOST_CELLS],
    head: &mut [u32; 3],
    sizes: &mut [u32; MOST_SLOTS],
    lines: &mut [u64; JOURNAL_WORDS],
) -> io::Result<Reader> {
    let mut kept = reader;
    for _ in 0..u64::MAX {
        let n = stdin.read(chunk)?;
        if n == 0 {
            return Ok(kept);
        }
        let read = kept.chunk(names, cells, head, sizes, lines, &chunk[..n]);
        kept = read.reader;
        if read.reply.is_err() {
            return Ok(kept);
        }
    }
    Ok(kept)
}

// The upload has ended: what the end call answers is printed.
fn finish(
    stdout: Stdout,
    reader: Reader,
    names: &mut [u64; MOST_NAMES],
    cells: &mut [u32; MOST_CELLS],
    head: &mut [u32; 3],
    sizes: &mut [u32; MOST_SLOTS],
    lines: &mut [u64; JOURNAL_WORDS],
    out: &mut [u8],
) -> io::Result<()> {
    let ended = reader.end(names, cells, head, sizes, lines);
    let answer = ended.reply.answer();
    let written = receipt(answer.number, names, cells, head, sizes, out);
    stdout.write_all(&out[..written])
}

fn main(rt: HostRuntime) -> io::Result<()> {
    let mut names = [0u64; MOST_NAMES];
    let mut cells = [0u32; MOST_CELLS];
    let mut head = [0u32; 3];
    let mut sizes = [0u32; MOST_SLOTS];
    let mut lines = [0u64; JOURNAL_WORDS];
    let mut chunk = [0u8; 65536];
    let mut out = [0u8; LONGEST];
    let _ = fresh(&mut names, &mut cells, &mut head, &mut sizes, &mut lines);
    let started = Reader::start(&names, &cells, &head, &sizes, &lines);
    let reader = serve(
        rt.stdin(),
        started.reader,
        &mut chunk,
        &mut names,
        &mut cells,
        &mut head,
        &mut sizes,
        &mut lines,
    )?;
    finish(
        rt.stdout(),
        reader,
        &mut names,
        &mut cells,
        &mut head,
        &mut sizes,
        &mut lines,
        &mut out,
    )
}
