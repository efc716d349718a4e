// An input counted in two pieces, and what came of it.
use crate::expect::{Figures, TOTALS};
use tally::figure::Figured;
use tally::stream::Stream;

const LENGTHS: usize = 8;

const BINS: usize = 1024;

const HEADS: usize = 768;

const NAMES: usize = 1024;

const CELLS: usize = 3584;

// The slices of the program.
#[derive(Clone, Copy)]
pub struct Room {
    lengths: [u32; LENGTHS],
    bins: [u32; BINS],
    heads: [u32; HEADS],
    names: [u64; NAMES],
    cells: [u32; CELLS],
}

impl Room {
    pub fn filled(word: u32) -> Room {
        Room {
            lengths: [word; LENGTHS],
            bins: [word; BINS],
            heads: [word; HEADS],
            names: [word as u64; NAMES],
            cells: [word; CELLS],
        }
    }

    // The next bytes of an input.
    pub fn chunk(&mut self, stream: Stream, totals: &mut [u64], bytes: &[u8]) -> Figured {
        stream.chunk(
            &mut self.lengths,
            &mut self.bins,
            &mut self.heads,
            &mut self.names,
            &mut self.cells,
            totals,
            bytes,
        )
    }
}

// The figures of an input that is cut at i into two pieces, from these on, in slices that had other words before.
pub fn outcome(bytes: &[u8], i: usize, from: Figures) -> Figures {
    let mut room = Room::filled(9);
    let mut totals: [u64; TOTALS] = from.totals;
    let (first, second) = bytes.split_at(i.min(bytes.len()));
    let begun = room.chunk(Stream::start(), &mut totals, first);
    let counted = room.chunk(begun.stream, &mut totals, second);
    let ended = counted.stream.end(&mut totals);
    Figures {
        totals,
        over: ended.stream.over,
    }
}
