// Input through the console in pieces, its answers held against those expected, byte for byte.
ghost use Rattle.std.specs.Prelude.{◌≡◌, ◌≤◌, length, take};
ghost use Rattle.index_rules.specs.Index.{lent};
ghost use Rattle.script_rules.specs.Feeding.{feeds, lent_desk};
ghost use Rattle.console.specs.Meanings.{held_line, fed_of};
ghost use Rattle.trials.specs.Playing.{agreed, played, playing};

use console::feed::{Fed, Line, blank, feed, finish};

// How far a part of the answers is what is expected from a place on: up to its end, or to the first byte that is not as expected.
pub fn agrees(expected: &[u8], from: usize, part: &[u8]) -> Result<usize, usize>
    ensures { result ≡ agreed expected.now from part.now }
{
    let mut at = from;
    for byte in part {
        if expected.get(at) != Some(byte) {
            return Err(at);
        }
        at += 1;
    }
    Ok(at)
}

// A call with the first bytes of the rest of the input.
fn feed_first(
    line: Line,
    rest: &[u8],
    cut: usize,
    names: &mut [u64],
    cells: &mut [u32],
    head: &mut [u32],
    sizes: &mut [u32],
    lines: &mut [u64],
    out: &mut [u8],
) -> Fed
    ensures out_after { fed_of result
        (lent names.new cells.new head.new sizes.new lines.new) out.new
        ≡ feeds (take cut rest.now)
        (lent_desk (held_line line) names.old cells.old head.old sizes.old
        lines.old out.old 0) }
    ensures bounds { (result.written ≤ length out.new) × (result.taken ≤ length rest.now) }
{
    if rest.len() <= cut {
        return feed(line, rest, names, cells, head, sizes, lines, out);
    }
    feed(line, &rest[..cut], names, cells, head, sizes, lines, out)
}

// The whole input, in pieces of so many bytes: how far its answers are what is expected, up to the first byte that is not.
pub fn play(
    input: &[u8],
    cut: usize,
    expected: &[u8],
    names: &mut [u64],
    cells: &mut [u32],
    head: &mut [u32],
    sizes: &mut [u32],
    lines: &mut [u64],
    out: &mut [u8],
) -> Result<usize, usize>
    ensures { played result
        (lent names.new cells.new head.new sizes.new lines.new) out.new
        ≡ playing cut expected.now input.now
        (lent names.old cells.old head.old sizes.old lines.old)
        out.old }
{
    let mut kept = blank();
    let mut at = 0;
    let mut said = 0;
    while at < input.len() {
        let fed = feed_first(
            kept,
            &input[at..],
            cut,
            names,
            cells,
            head,
            sizes,
            lines,
            out,
        );
        let met = agrees(expected, said, &out[..fed.written])?;
        if fed.taken == 0 {
            return Err(met);
        }
        kept = fed.line;
        said = met;
        at += fed.taken;
    }
    let last = finish(kept, names, cells, head, sizes, lines, out);
    agrees(expected, said, &out[..last.written])
}
