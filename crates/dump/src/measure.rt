// What some bytes are, by their two counts and their number.
ghost use Rattle.std.specs.Prelude.{◌≡◌};
ghost use Rattle.dump_rules.specs.Dump.{dump_size, weighed, measured};
ghost use Rattle.dump.specs.Measures.{measure_of};

use endian::word_at;
use slots::{MOST_LINES, MOST_SLOTS};

// What is wrong with bytes that are no dump.
#[derive(Clone, Copy, PartialEq, Eq)]
pub enum NoDump {
    Stub(usize), // too few bytes for the two counts
    SlotsOut(u32), // no capacity of an index
    LinesOut(u32), // none of a journal
    Short(usize, u32, u32), // fewer bytes than a dump of so many slots and lines
    Long(u32, u32), // more
}

// The bytes of a dump of n slots and c lines, for any two counts.
pub(crate) fn dump_size(n: u32, c: u32) -> u64
    ensures { result ≡ dump_size n c }
{
    28 + 48 * n as u64 + 48 * c as u64
}

// The two counts are within the limits: the number of bytes decides.
fn weigh(len: usize, n: u32, c: u32) -> Result<(u32, u32), NoDump>
    ensures { measure_of result ≡ weighed len n c }
{
    let size = dump_size(n, c);
    if (len as u64) < size {
        return Err(NoDump::Short(len, n, c));
    }
    if size < len as u64 {
        return Err(NoDump::Long(n, c));
    }
    Ok((n, c))
}

// How many slots and lines the dump has that the bytes are, or what is wrong with them.
pub fn gauge(bytes: &[u8]) -> Result<(u32, u32), NoDump>
    ensures { measure_of result ≡ measured bytes.now }
{
    if bytes.len() < 8 {
        return Err(NoDump::Stub(bytes.len()));
    }
    let n: u32 = word_at(bytes, 0);
    if n < 1 || MOST_SLOTS < n as usize {
        return Err(NoDump::SlotsOut(n));
    }
    let c: u32 = word_at(bytes, 1);
    if MOST_LINES < c as usize {
        return Err(NoDump::LinesOut(c));
    }
    weigh(bytes.len(), n, c)
}
