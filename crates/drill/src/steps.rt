// What the parts of the drill ask: the journal's length, the mark of a cut, and where a call ends.
ghost use Rattle.std.specs.Prelude.{◌<◌, ◌≤◌, length as size};

use index::journal::length_of;
use index::sound::sound;

// A count that does not come near 32 bits, with some more.
pub fn more(count: u32, by: u32) -> u32 {
    count.wrapping_add(by)
}

// The same with one more, if something is so.
pub fn counted(count: u32, so: bool) -> u32 {
    more(count, u32::from(so))
}

// The journal's length.
pub fn length(lines: &[u64]) -> u32 {
    (length_of(lines) % 4294967296) as u32
}

// Whether all rules of a tree hold, beside what it holds.
pub fn is_sound(names: &[u64], cells: &[u32], head: &[u32], sizes: &[u32]) -> bool {
    matches!(sound(names, cells, head, sizes), Ok(true))
}

// The mark for a cut, up to the journal's length; 0 at every eighth.
pub fn mark_of(cut: u32, length: u32) -> u32 {
    if cut % 8 == 0 {
        return 0;
    }
    cut % 65536 * 37 % (length % 65536 + 1)
}

// Where the line that starts at a place ends, its newline with it.
// Form kept: the two loops from end to end are no plainer by split_inclusive: starts wants each line's place, and both cut alike.
pub(crate) fn line_end(script: &[u8], at: usize) -> usize
    requires { at < size script.now }
    ensures { (at < result) × (result ≤ size script.now) }
{
    match script[at..].iter().position(|byte| *byte == b'\n') {
        Some(further) => at + further + 1,
        None => script.len(),
    }
}
