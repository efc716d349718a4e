// Where an input of many sets stands: a stream goes in by value and comes back.
ghost use Rattle.std.specs.Prelude.{◌≡◌, [], ◌+◌, ◌*◌, ◌^◌, ◌<◌};
ghost use Rattle.set_rules.specs.Words.{lent_set};
ghost use Rattle.figure_rules.specs.Pieces.{length_fits, end_fits, stream_fits};
ghost use Rattle.tally.specs.Meanings.{stream_of};

use crate::totals::fit_totals;
use file::load::may_go_on;
use file::loader::Loader;

// Form kept: got is a number, since the rules' stream_of and length_fits count with it; 4 stands for the set.
#[derive(Clone, Copy)]
pub struct Stream {
    pub got: u64, // the bytes of the length that have come, 4 while the set's own come
    pub left: u64, // the number of those bytes; then the set's bytes that are to come
    pub loader: Loader,
    pub over: bool, // whether a set came after a million
}

// 256 to the power of fewer than four.
#[tactic(auto, using(crate::proofs::Streaming::unit_fits))]
fn unit(k: u64) -> u64
    requires { k < 4 }
    ensures { result ≡ 256 ^ k }
{
    256u64.pow(k as u32)
}

// The number of so many bytes, with one more on top.
pub(crate) fn with_byte(got: u64, left: u64, byte: u8) -> u64
    requires { (got < 4) × (left < 256 ^ got) }
    ensures { result ≡ left + 256 ^ got * byte }
{
    left + unit(got) * byte as u64
}

// Whether the two numbers are in their ranges.
fn length_fits(got: u64, left: u64) -> bool
    ensures { result ≡ length_fits got left }
{
    if got == 4 {
        return 1 <= left && left < 4294967296;
    }
    if 4 <= got {
        return false;
    }
    left < unit(got)
}

// Whether the numbers and the totals are in their ranges.
pub(crate) fn end_fits(r: Stream, totals: &[u64]) -> bool
    ensures { result ≡ end_fits (stream_of r (lent_set [] [] [] [] []) totals.now) }
{
    length_fits(r.got, r.left) && fit_totals(totals)
}

// Whether all is in its ranges, the loader with the slices too.
pub(crate) fn stream_fits(
    r: Stream,
    lengths: &[u32],
    bins: &[u32],
    heads: &[u32],
    names: &[u64],
    cells: &[u32],
    totals: &[u64],
) -> bool
    ensures { result
        ≡ stream_fits (stream_of r
        (lent_set lengths.now bins.now heads.now names.now cells.now)
        totals.now) }
{
    let loader = r.loader;
    end_fits(r, totals) && may_go_on(lengths, bins, heads, names, cells, loader)
}
