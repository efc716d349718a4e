// The reader's eight words, and their ranges.
ghost use Rattle.std.specs.Prelude.{◌≡◌};
ghost use Rattle.upload_rules.specs.Reader.{reader_of, unsaid as nothing, FitReader, fits_reader, noting as with_note, reader_answer};
ghost use Rattle.reader.specs.Meanings.{words_of, reply_of};

use crate::reply::Reply;

// The answer that every later call gives again, once one is noted.
pub type Note = Option<Reply>;

// Form kept: numbers, since these are the eight words of the C interface, and the rules count from them.
#[derive(Clone, Copy)]
pub struct Reader {
    pub section: u64, // the sections that are whole
    pub got: u64, // the bytes of the next one's header that have come, 0 to 2; in its entries 3 and the bytes of the entry
    pub owed: u64, // the entries of it that are to come; in the header the bytes of the count
    pub hash: u64, // the bytes of the entry
    pub key: u64,
    pub mark: u32, // the journal's length at the start
    pub taken: u64, // the entries taken since the start
    pub note: Note,
}

// Whether the words are in their ranges: each is bounded before it is counted with.
#[tactic(auto, unfolding(upload_rules::specs::Reader::fits_reader))]
pub(crate) fn fits_reader(r: Reader) -> bool
    ensures { result ≡ fits_reader (words_of r) }
{
    let got = r.got;
    let section = r.section;
    let owed = r.owed;
    let taken = r.taken;
    if 18 < got || 4 < section || 76 < 19 * section + got || 65535 < owed {
        return false;
    }
    if got < 3 {
        return taken <= 65535 * section;
    }
    1 <= owed && taken <= 327675 && taken + owed <= 65535 * (section + 1)
}

// A reader of these words, with nothing noted.
pub(crate) fn unsaid(
    section: u64,
    got: u64,
    owed: u64,
    hash: u64,
    key: u64,
    mark: u32,
    taken: u64,
) -> Reader
    ensures { words_of result ≡ reader_of section got owed hash key mark taken nothing }
{
    Reader {
        section,
        got,
        owed,
        hash,
        key,
        mark,
        taken,
        note: None,
    }
}

// The reader with an answer noted.
pub(crate) fn noting(r: Reader, reply: Reply) -> Reader
    ensures { words_of result ≡ with_note (words_of r) (reply_of reply) }
{
    Reader {
        note: Some(reply),
        ..r
    }
}

// What a call answers: what is noted, or the entries taken.
pub(crate) fn reply_of(r: Reader) -> Reply
    requires { FitReader (words_of r) }
    ensures { reply_of result ≡ reader_answer (words_of r) }
{
    r.note.unwrap_or(Ok(r.taken as u32))
}
