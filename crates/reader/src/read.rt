// start, chunk and end: the reader goes in by value and comes back.
ghost use Rattle.std.specs.Prelude.{◌≡◌};
ghost use Rattle.index_rules.specs.Index.{lent};
ghost use Rattle.upload_rules.specs.Reader.{FitReader, new_reader};
ghost use Rattle.upload_rules.specs.Reading.{session, read_start, read_chunk, end_came, read_end};
ghost use Rattle.reader.specs.Meanings.{words_of, reading_of};

use crate::reply::{ReadRefusal, Reply};
use crate::steps::{Reading, take, turn_down};
use crate::words::{Reader, fits_reader, noting, reply_of, unsaid};
use index::journal::length_of;
use index::sound::sound_index;

// What a call answers, and the reader after it.
#[derive(Clone, Copy)]
pub struct Read {
    pub reply: Reply,
    pub reader: Reader,
}

// The reader of a start.
fn new_reader(mark: u32) -> Reader
    ensures { words_of result ≡ new_reader mark }
{
    unsaid(0, 0, 0, 0, 0, mark, 0)
}

// The end of the bytes, nothing being noted.
#[tactic(auto, using(crate::proofs::Ranging::few_taken), unfolding(upload_rules::specs::Reading::end_came))]
fn close(
    names: &mut [u64],
    cells: &mut [u32],
    head: &mut [u32],
    sizes: &mut [u32],
    lines: &mut [u64],
    r: Reader,
) -> Reader
    requires { FitReader (words_of r) }
    ensures { session (words_of result)
        (lent names.new cells.new head.new sizes.new lines.new)
        ≡ end_came (words_of r)
        (lent names.old cells.old head.old sizes.old lines.old) }
{
    if r.section == 4 {
        return noting(r, Ok(r.taken as u32));
    }
    turn_down(
        names,
        cells,
        head,
        sizes,
        lines,
        r,
        None,
        ReadRefusal::Short,
    )
}

impl Reader {
    // Begins an upload. The slices are only read; where it is refused the reader is that of a start on an empty journal.
    pub fn start(names: &[u64], cells: &[u32], head: &[u32], sizes: &[u32], lines: &[u64]) -> Read
        ensures { reading_of result
            (lent names.now cells.now head.now sizes.now lines.now)
            ≡ read_start (session (new_reader 0)
            (lent names.now cells.now head.now sizes.now lines.now)) }
    {
        match sound_index(names, cells, head, sizes, lines) {
            Err(_) => Read {
                reply: Err(ReadRefusal::Unfit),
                reader: new_reader(0),
            },
            Ok(false) => Read {
                reply: Err(ReadRefusal::Damaged),
                reader: new_reader(0),
            },
            Ok(true) => {
                let mark = length_of(lines);
                Read {
                    reply: Ok(1),
                    reader: new_reader(mark as u32),
                }
            }
        }
    }

    // Takes the bytes of a chunk one after the other, up to the one where an answer is noted: the index is checked where the first entry
    // ends, and not again.
    pub fn chunk(
        self,
        names: &mut [u64],
        cells: &mut [u32],
        head: &mut [u32],
        sizes: &mut [u32],
        lines: &mut [u64],
        chunk: &[u8],
    ) -> Read
        ensures { reading_of result
            (lent names.new cells.new head.new sizes.new lines.new)
            ≡ read_chunk (session (words_of self)
            (lent names.old cells.old head.old sizes.old lines.old))
            chunk.now }
    {
        if !fits_reader(self) {
            return Read {
                reply: Err(ReadRefusal::Unfit),
                reader: self,
            };
        }
        let mut at = Reading {
            reader: self,
            floor: None,
        };
        for b in chunk {
            let reader = at.reader;
            if let Some(reply) = reader.note {
                return Read { reply, reader };
            }
            at = take(names, cells, head, sizes, lines, at, *b);
        }
        let reader = at.reader;
        Read {
            reply: reply_of(reader),
            reader,
        }
    }

    // The upload has ended.
    pub fn end(
        self,
        names: &mut [u64],
        cells: &mut [u32],
        head: &mut [u32],
        sizes: &mut [u32],
        lines: &mut [u64],
    ) -> Read
        ensures { reading_of result
            (lent names.new cells.new head.new sizes.new lines.new)
            ≡ read_end (session (words_of self)
            (lent names.old cells.old head.old sizes.old lines.old)) }
    {
        if !fits_reader(self) {
            return Read {
                reply: Err(ReadRefusal::Unfit),
                reader: self,
            };
        }
        if let Some(reply) = self.note {
            return Read {
                reply,
                reader: self,
            };
        }
        let reader = close(names, cells, head, sizes, lines, self);
        Read {
            reply: reply_of(reader),
            reader,
        }
    }
}
