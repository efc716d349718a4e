// The bytes that touch the reader alone: of a count, and of an entry but for its last.
ghost use Rattle.std.specs.Prelude.{◌≡◌, ◌≤◌};
ghost use Rattle.upload_rules.specs.Reading.{owing, count_came, entry_came, name_byte};
ghost use Rattle.reader.specs.Meanings.{words_of};

use crate::words::{Reader, unsaid};

// So many entries are to come in the section: the next one, or else the next section.
#[tactic(auto, unfolding(upload_rules::specs::Reading::owing))]
pub(crate) fn owe(r: Reader, owed: u64, taken: u64) -> Reader
    requires { r.section ≤ 4 }
    ensures { words_of result ≡ owing (words_of r) owed taken }
{
    if owed == 0 {
        return unsaid(r.section + 1, 0, 0, 0, 0, r.mark, taken);
    }
    unsaid(r.section, 3, owed, 0, 0, r.mark, taken)
}

// A byte of the count.
#[tactic(auto, unfolding(upload_rules::specs::Reading::count_came, upload_rules::specs::Reading::count_byte))]
pub(crate) fn take_count(r: Reader, b: u8) -> Reader
    requires { r.section ≤ 4 }
    ensures { words_of result ≡ count_came (words_of r) b }
{
    let owed = r.owed / 256 + 256 * (b as u64);
    if r.got == 1 {
        return unsaid(r.section, 2, owed, 0, 0, r.mark, r.taken);
    }
    owe(r, owed, r.taken)
}

// What the top byte of a word counts.
const TOP: u64 = 72057594037927936;

// A hash or a key with the next of its bytes on top, where the lowest byte goes.
#[tactic(auto, unfolding(upload_rules::specs::Reading::name_byte))]
pub(crate) fn name_byte(x: u64, b: u8) -> u64
    ensures { result ≡ name_byte x b }
{
    x / 256 + TOP * (b as u64)
}

// A byte of an entry that is not its last.
#[tactic(auto, unfolding(upload_rules::specs::Reading::entry_came, upload_rules::specs::Reading::in_hash))]
pub(crate) fn take_entry(r: Reader, b: u8) -> Reader
    requires { r.got ≤ 18 }
    ensures { words_of result ≡ entry_came (words_of r) b }
{
    let got = r.got + 1;
    if r.got < 11 {
        let hash = name_byte(r.hash, b);
        return unsaid(r.section, got, r.owed, hash, r.key, r.mark, r.taken);
    }
    let key = name_byte(r.key, b);
    unsaid(r.section, got, r.owed, r.hash, key, r.mark, r.taken)
}
