// The exported word of a note: 0 while nothing is noted, else 1 + the answer's word.
ghost use Rattle.std.specs.Prelude.{◌≡◌, ◌+◌};
ghost use Rattle.slots.specs.Answers.{answer_word};
ghost use Rattle.reader.specs.Meanings.{reply_of, note_of};
ghost use Rattle.reader.specs.Notes.{plain_at, note_at, note_at_of};
ghost use Rattle.upload_rules.specs.Notes.{note_word};

use crate::reply::{ReadRefusal, Reply};
use crate::words::Note;
use slots::answer::{Answers, packed};

// So many values there are beside a number.
const VALUES: u64 = 4294967296;

// 1 + the answer's word.
// Form kept: file has this line over its own replies; one for both is no plainer, since it would owe in its clause what each says.
fn reply_word(reply: Reply) -> u64
    ensures { result ≡ 1 + answer_word (reply_of reply) }
{
    let answer = reply.answer();
    1 + packed(answer.number, answer.value.unwrap_or(0))
}

// The note of a refusal that has no value with it, by its number.
// Form kept: no TryFrom, since a note is an Option of a Result: neither the trait nor the type is of this crate.
#[tactic(auto, unfolding(crate::specs::Notes::plain_at))]
fn plain_at(number: u64) -> Option<Note>
    ensures { note_at_of result ≡ plain_at number }
{
    let refusal = match number {
        1 => ReadRefusal::Unfit,
        2 => ReadRefusal::Damaged,
        5 => ReadRefusal::Full,
        6 => ReadRefusal::JournalFull,
        7 => ReadRefusal::BadMark,
        8 => ReadRefusal::Misfit,
        12 => ReadRefusal::Short,
        13 => ReadRefusal::Long,
        18 => ReadRefusal::WrongKind,
        _ => return None,
    };
    Some(Some(Err(refusal)))
}

// The word of a note.
#[tactic(auto, unfolding(upload_rules::specs::Notes::note_word))]
pub fn word(note: Note) -> u64
    ensures { result ≡ note_word (note_of note) }
{
    match note {
        None => 0,
        Some(reply) => reply_word(reply),
    }
}

// The note that a word says, unless that is no answer of the reader.
// Form kept: no TryFrom, since a note is an Option of a Result: neither the trait nor the type is of this crate.
#[tactic(auto, unfolding(crate::specs::Notes::note_at, crate::specs::Notes::note_with))]
pub fn of_word(word: u64) -> Option<Note>
    ensures { note_at_of result ≡ note_at word }
{
    if word == 0 {
        return Some(None);
    }
    let number = (word - 1) / VALUES;
    let value = (word - 1) % VALUES;
    match number {
        0 => Some(Some(Ok(value as u32))),
        3 => Some(Some(Err(ReadRefusal::Present(value as u32)))),
        _ if value == 0 => plain_at(number),
        _ => None,
    }
}
