// Which headers the halves get, and how a header is written.
ghost use Rattle.std.specs.Prelude.{◌≡◌, ◌-◌, ◌<◌, IfSome, leb};
ghost use Rattle.slots.specs.Words.{null, pick};
ghost use Rattle.move_rules.specs.Moving.{most_listed, spare_from, headed_at};
ghost use Rattle.mover.specs.Moved.{headed, found_or_null};

use crate::moving::MoveRefusal;
use slots::{COUNT, FIRST, NULL, put_word, word};

// The most entries of a half that becomes a list.
const MOST_LISTED: u32 = 6;

// The lowest of so many headers from the first on that has no root or is the bin's own.
fn spare(heads: &[u32], own: u32, first: u32, headers: u32) -> Option<u32>
    ensures { (found_or_null result ≡ spare_from (headers - first) heads.now own first) × IfSome result (λ h. h < headers) }
{
    for h in first..headers {
        if h == own || word(heads, 3 * (h as usize), NULL) == NULL {
            return Some(h);
        }
    }
    None
}

// The header for a half of so many entries; none for one that becomes a list.
pub(crate) fn header_for(
    heads: &[u32],
    own: u32,
    first: u32,
    headers: u32,
    count: u32,
) -> Result<Option<u32>, MoveRefusal>
    ensures { result
        ≡ headed count (pick (leb count most_listed) null (spare_from (headers - first) heads.now own first)) }
{
    if count <= MOST_LISTED {
        return Ok(None);
    }
    // Form kept: tried as .map(Some).ok_or(MoveRefusal::Full), and the proof did not close.
    match spare(heads, own, first, headers) {
        Some(h) => Ok(Some(h)),
        None => Err(MoveRefusal::Full),
    }
}

// Writes the three words of a header; nothing where there is none.
pub(crate) fn put_header(heads: &mut [u32], h: u32, root: u32, first: u32, count: u32)
    ensures { heads.new ≡ headed_at heads.old h root first count }
{
    let at = 3 * (h as usize);
    put_word(heads, at, root);
    put_word(heads, at + FIRST, first);
    put_word(heads, at + COUNT, count);
}
