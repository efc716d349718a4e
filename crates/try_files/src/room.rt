// The slices that a file is loaded into, and what is to be true of them afterwards.
ghost use Rattle.std.specs.Prelude.{◌≤◌};

use file::load::Load;
use file::loader::Loader;
use file::save::save;
use trials::part::first;

// Three tables, four bins, two headers and six slots: one of each more than the sample has.
const TABLES: usize = 3;

const BINS: usize = 4;

const HEADS: usize = 6;

const NAMES: usize = 12;

const CELLS: usize = 42;

#[derive(Clone, Copy, PartialEq)]
pub struct Room {
    lengths: [u32; TABLES],
    bins: [u32; BINS],
    heads: [u32; HEADS],
    names: [u64; NAMES],
    cells: [u32; CELLS],
}

// A count of the loader; 0 for one that no slice holds.
fn few(count: u64) -> usize
    ensures { result ≤ 42 }
{
    if count <= 42 { count as usize } else { 0 }
}

// Whether a buffer has these bytes at its front, and 7 behind them.
fn has_bytes(out: &[u8], bytes: &[u8]) -> bool {
    match out.split_at_checked(bytes.len()) {
        Some((front, rest)) => front == bytes && rest.iter().all(|byte| *byte == 7),
        None => false,
    }
}

// Whether the words are 0 from one on.
fn zero_from<T: Copy + Into<u64>>(words: &[T], from: usize) -> bool {
    for (k, word) in words.iter().enumerate() {
        let value: u64 = (*word).into();
        if from <= k && value != 0 {
            return false;
        }
    }
    true
}

impl Room {
    // Slices that had other words before.
    pub fn used() -> Room {
        Room {
            lengths: [9; TABLES],
            bins: [9; BINS],
            heads: [9; HEADS],
            names: [9; NAMES],
            cells: [9; CELLS],
        }
    }

    // The next bytes of a file.
    pub fn chunk(&mut self, loader: Loader, bytes: &[u8]) -> Load {
        loader.chunk(
            &mut self.lengths,
            &mut self.bins,
            &mut self.heads,
            &mut self.names,
            &mut self.cells,
            bytes,
        )
    }

    // The end of a file.
    pub fn end(&mut self, loader: Loader) -> Load {
        loader.end(
            &mut self.lengths,
            &mut self.bins,
            &mut self.heads,
            &mut self.names,
            &mut self.cells,
        )
    }

    // Whether save of the set that the counts cut out writes these bytes, all of them and no other.
    pub fn saves_to(&self, loader: Loader, bytes: &[u8]) -> bool {
        let mut out = [7u8; 320];
        let reply = save(
            first(&self.lengths, few(loader.tables)),
            first(&self.bins, few(loader.words)),
            first(&self.heads, 3 * few(loader.headers)),
            first(&self.names, 2 * few(loader.slots)),
            first(&self.cells, 7 * few(loader.slots)),
            &mut out,
        );
        match reply {
            Ok(n) => n as usize == bytes.len() && has_bytes(&out, bytes),
            Err(_) => false,
        }
    }

    // Whether the slices are 0 behind these counts.
    pub fn is_clean(&self, tables: u64, words: u64, headers: u64, slots: u64) -> bool {
        zero_from(&self.lengths, few(tables))
            && zero_from(&self.bins, few(words))
            && zero_from(&self.heads, 3 * few(headers))
            && zero_from(&self.names, 2 * few(slots))
            && zero_from(&self.cells, 7 * few(slots))
    }
}
