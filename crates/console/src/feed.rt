// Chunks of input in, answers out. What is kept between two calls is the line that has come so far.
ghost use Rattle.std.specs.Prelude.{◌≡◌, ◌≤◌, length, replicate, take};
ghost use Rattle.index_rules.specs.Index.{lent};
ghost use Rattle.script_rules.specs.Commands.{spoken};
ghost use Rattle.script_rules.specs.Feeding.{Line as Held, blank_line, held_of, noted, fed_byte, feeds, finishes};
ghost use Rattle.script_rules.specs.Feeding.{lent_desk};
ghost use Rattle.console.specs.Meanings.{held_line, fed_of};
ghost use Rattle.console.specs.Phrases.{command_of};

use crate::answer::obey;
use crate::read::{Command, meaning};
use slots::answer::Unfit;

// No answer is longer: 4,096 entries of at most 63 bytes, and the line before them.
pub const LONGEST: usize = 262144;

// At most 81 bytes of a line are kept: one over 80 is bad, whatever follows.
const WIDTH: usize = 81;

// The line that has come so far.
// Form kept: an array and a count, since a line is kept between two calls by value, and the library has no heap.
#[derive(Clone, Copy)]
pub struct Line {
    pub bytes: [u8; WIDTH],
    pub count: usize,
}

// What a call comes to: what it answers, the line, the bytes of the chunk that were taken and those of the buffer that were
// written.
#[derive(Clone, Copy)]
pub struct Fed {
    pub answer: Result<(), Unfit>,
    pub line: Line,
    pub taken: usize,
    pub written: usize,
}

// No line has begun.
pub fn blank() -> Line
    ensures { held_line result ≡ blank_line }
{
    Line {
        bytes: [0u8; WIDTH],
        count: 0,
    }
}

// One byte more of the line.
#[tactic(auto, unfolding(script_rules::specs::Feeding::noted))]
fn note(line: Line, b: u8) -> Line
    ensures { held_line result ≡ noted (held_line line) b }
{
    let mut bytes = line.bytes;
    let count = line.count;
    if WIDTH <= count {
        return line;
    }
    bytes[count] = b;
    Line {
        bytes,
        count: count + 1,
    }
}

// What the first bytes of those that were kept mean.
fn first_meaning(bytes: &[u8], count: usize) -> Command
    ensures { command_of result ≡ spoken (take count bytes.now) }
{
    meaning(bytes.get(..count).unwrap_or(bytes))
}

// What the line that was kept means.
fn kept_meaning(line: Line) -> Command
    ensures { command_of result ≡ spoken (held_of (held_line line)) }
{
    first_meaning(&line.bytes, line.count)
}

// What one byte comes to: the line, and where the next byte of the buffer goes.
#[derive(Clone, Copy)]
struct Step {
    line: Line,
    at: usize,
}

#[tactic(auto, unfolding(script_rules::specs::Feeding::fed_byte, script_rules::specs::Feeding::answered))]
fn take_byte(
    line: Line,
    b: u8,
    names: &mut [u64],
    cells: &mut [u32],
    head: &mut [u32],
    sizes: &mut [u32],
    lines: &mut [u64],
    out: &mut [u8],
    at: usize,
) -> Step
    ensures { lent_desk (held_line result.line) names.new cells.new head.new sizes.new
        lines.new out.new result.at
        ≡ fed_byte (lent_desk (held_line line) names.old cells.old head.old sizes.old
        lines.old out.old at) b }
{
    if b == b'\n' {
        let command = kept_meaning(line);
        let end = obey(command, names, cells, head, sizes, lines, out, at);
        let next = blank();
        return Step {
            line: next,
            at: end,
        };
    }
    let next = note(line, b);
    Step { line: next, at }
}

// Takes the bytes of a chunk while the buffer has room for any answer. The rest of the chunk is for the next call. A buffer
// in which the longest answer has no room is refused with 1, and nothing is taken.
#[tactic(auto, using(crate::proofs::Bytes::chunk_feeding))]
pub fn feed(
    line: Line,
    chunk: &[u8],
    names: &mut [u64],
    cells: &mut [u32],
    head: &mut [u32],
    sizes: &mut [u32],
    lines: &mut [u64],
    out: &mut [u8],
) -> Fed
    ensures out_after { fed_of result
        (lent names.new cells.new head.new sizes.new lines.new) out.new
        ≡ feeds chunk.now
        (lent_desk (held_line line) names.old cells.old head.old sizes.old
        lines.old out.old 0) }
    ensures bounds { (result.written ≤ length out.new) × (result.taken ≤ length chunk.now) }
{
    if out.len() < LONGEST {
        return Fed {
            answer: Err(Unfit),
            line,
            taken: 0,
            written: 0,
        };
    }
    let mut kept = line;
    let mut written = 0;
    for (i, b) in chunk.iter().enumerate() {
        if out.len() - written < LONGEST {
            return Fed {
                answer: Ok(()),
                line: kept,
                taken: i,
                written,
            };
        }
        let step = take_byte(kept, *b, names, cells, head, sizes, lines, out, written);
        kept = step.line;
        written = step.at;
    }
    Fed {
        answer: Ok(()),
        line: kept,
        taken: chunk.len(),
        written,
    }
}

// The input has ended: an unended last line is answered.
#[tactic(auto, unfolding(script_rules::specs::Feeding::finishes, script_rules::specs::Feeding::answered))]
pub fn finish(
    line: Line,
    names: &mut [u64],
    cells: &mut [u32],
    head: &mut [u32],
    sizes: &mut [u32],
    lines: &mut [u64],
    out: &mut [u8],
) -> Fed
    ensures out_after { fed_of result
        (lent names.new cells.new head.new sizes.new lines.new) out.new
        ≡ finishes (lent_desk (held_line line) names.old cells.old head.old sizes.old
        lines.old out.old 0) }
    ensures bounds { result.written ≤ length out.new }
{
    if out.len() < LONGEST {
        return Fed {
            answer: Err(Unfit),
            line,
            taken: 0,
            written: 0,
        };
    }
    let count = line.count;
    if count == 0 {
        return Fed {
            answer: Ok(()),
            line,
            taken: 0,
            written: 0,
        };
    }
    let command = kept_meaning(line);
    let written = obey(command, names, cells, head, sizes, lines, out, 0);
    let next = blank();
    Fed {
        answer: Ok(()),
        line: next,
        taken: 0,
        written,
    }
}
