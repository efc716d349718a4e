// The exported word of a note: 0 while nothing is noted, else 1 + the answer's word.
ghost use Rattle.std.specs.Prelude.{◌≡◌};
ghost use Rattle.upload_rules.specs.Notes.{note_word};
ghost use Rattle.file.specs.Meanings.{load_note_of};
ghost use Rattle.file.specs.Notes.{load_note_at, load_note_at_of};

use crate::loader::LoadNote;
use crate::reply::LoadRefusal;
use slots::answer::{Answers, packed};

// So many values there are beside a number.
const VALUES: u64 = 4294967296;

// The word of a note.
// Form kept: the reader's notes have these lines too: the clause names upload_rules' note_word, which lies above slots, so that no crate
// below both could say it of a routine for both.
pub fn word(note: LoadNote) -> u64
    ensures { result ≡ note_word (load_note_of note) }
{
    match note {
        Some(reply) => {
            let answer = reply.answer();
            1 + packed(answer.number, answer.value.unwrap_or(0))
        }
        None => 0,
    }
}

// The note of a word; none where the word says no answer of the loader.
// Form kept: no TryFrom, since a note is an Option of a Result: neither the trait nor the type is of this crate.
pub fn of_word(word: u64) -> Option<LoadNote>
    ensures { load_note_at_of result ≡ load_note_at word }
{
    if word == 0 {
        return Some(None);
    }
    let number = (word - 1) / VALUES;
    let value = (word - 1) % VALUES;
    if number == 0 {
        return Some(Some(Ok(value as u32)));
    }
    if value != 0 {
        return None;
    }
    match number {
        1 => Some(Some(Err(LoadRefusal::Unfit))),
        2 => Some(Some(Err(LoadRefusal::Damaged))),
        12 => Some(Some(Err(LoadRefusal::Short))),
        13 => Some(Some(Err(LoadRefusal::Long))),
        14 => Some(Some(Err(LoadRefusal::OverLimit))),
        _ => None,
    }
}
