// start, chunk and end of a stream.
ghost use Rattle.std.specs.Prelude.{◌≡◌, []};
ghost use Rattle.set_rules.specs.Words.{lent_set};
ghost use Rattle.figure_rules.specs.Totals.{counted_in, FitTotals};
ghost use Rattle.figure_rules.specs.Stream.{figures, bytes_figured, input_ends};
ghost use Rattle.figure_rules.specs.Pieces.{FitStream, stream_start, piece_taken, input_ended};
ghost use Rattle.tally.specs.Meanings.{stream_of, figured_of};

use crate::input::{step, tally_none};
use crate::stream::{Stream, end_fits, stream_fits};
use crate::totals::{REFUSED, SETS};
use file::loader::Loader;
use slots::answer::Unfit;
use slots::word;

// What a call answers, and the stream after it.
#[derive(Clone, Copy)]
pub struct Figured {
    pub reply: Result<u32, Unfit>, // the sets that are counted so far
    pub stream: Stream,
}

// The sets that are counted so far.
fn counted(totals: &[u64]) -> u32
    requires { FitTotals totals.now }
    ensures { result ≡ counted_in totals.now }
{
    let sets = word(totals, SETS, 0) + word(totals, REFUSED, 0);
    sets as u32
}

// The bytes of a piece one after another.
// Form kept: as in the loader; one loop for both would take the step as a closure over five slices and say its clause again.
fn take_all(
    r: Stream,
    lengths: &mut [u32],
    bins: &mut [u32],
    heads: &mut [u32],
    names: &mut [u64],
    cells: &mut [u32],
    totals: &mut [u64],
    piece: &[u8],
) -> Stream
    requires { FitStream (stream_of r (lent_set lengths.old bins.old heads.old names.old cells.old) totals.old) }
    ensures { (stream_of result
        (lent_set lengths.new bins.new heads.new names.new cells.new)
        totals.new
        ≡ bytes_figured (stream_of r
        (lent_set lengths.old bins.old heads.old names.old cells.old)
        totals.old) piece.now)
        × FitTotals totals.new }
{
    let mut stream = r;
    let mut rest = piece;
    while !rest.is_empty() {
        let next = step(stream, lengths, bins, heads, names, cells, totals, rest);
        stream = next.stream;
        rest = &rest[next.used..];
    }
    stream
}

// A set that is cut short is counted as refused.
fn end_over(r: Stream, totals: &mut [u64]) -> bool
    ensures { figures totals.new result ≡ input_ends (stream_of r (lent_set [] [] [] [] []) totals.old) }
{
    if r.got == 0 {
        return r.over;
    }
    tally_none(totals, r.over)
}

impl Stream {
    // Begins an input.
    pub fn start() -> Stream
        ensures { stream_of result (lent_set [] [] [] [] []) [] ≡ stream_start (lent_set [] [] [] [] []) [] }
    {
        let started = Loader::start();
        let loader = started.loader;
        Stream {
            got: 0,
            left: 0,
            loader,
            over: false,
        }
    }

    // The next bytes of the input.
    pub fn chunk(
        self,
        lengths: &mut [u32],
        bins: &mut [u32],
        heads: &mut [u32],
        names: &mut [u64],
        cells: &mut [u32],
        totals: &mut [u64],
        piece: &[u8],
    ) -> Figured
        ensures { figured_of result
            (lent_set lengths.new bins.new heads.new names.new cells.new)
            totals.new
            ≡ piece_taken (stream_of self
            (lent_set lengths.old bins.old heads.old names.old cells.old)
            totals.old) piece.now }
    {
        let fits = stream_fits(self, lengths, bins, heads, names, cells, totals);
        if !fits {
            return Figured {
                reply: Err(Unfit),
                stream: self,
            };
        }
        let stream = take_all(self, lengths, bins, heads, names, cells, totals, piece);
        let sets = counted(totals);
        Figured {
            reply: Ok(sets),
            stream,
        }
    }

    // The input has ended.
    pub fn end(self, totals: &mut [u64]) -> Figured
        ensures { figured_of result (lent_set [] [] [] [] []) totals.new
            ≡ input_ended (stream_of self (lent_set [] [] [] [] []) totals.old) }
    {
        let fits = end_fits(self, totals);
        if !fits {
            return Figured {
                reply: Err(Unfit),
                stream: self,
            };
        }
        let over = end_over(self, totals);
        let loader = self.loader;
        let stream = Stream {
            got: 0,
            left: 0,
            loader,
            over,
        };
        let sets = counted(totals);
        Figured {
            reply: Ok(sets),
            stream,
        }
    }
}
