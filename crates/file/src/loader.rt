// The loader's eight words, their ranges, and the bytes that they count.
ghost use Rattle.std.specs.Prelude.{◌≡◌, ◌+◌, ◌^◌, ◌≤◌, ◌<◌};
ghost use Rattle.file_rules.specs.Layout.{slot_width, section_words, most_of};
ghost use Rattle.file_rules.specs.Loader.{FitLoader, next_width, count_taken, counts_come, count_fits, fits_loader, note_in};
ghost use Rattle.file_rules.specs.Loader.{slot_long, words_long, begun_long, wholes_long, taken_of, loader_answer};
ghost use Rattle.file.specs.Meanings.{loader_words, load_reply_of};
ghost use Rattle.file.specs.Ranged.{CountsTold};

use crate::reply::LoadReply;

// Nothing is noted, or an answer is that every later call gives again.
pub type LoadNote = Option<LoadReply>;

// Form kept: numbers, since these are the eight words of the C interface, and the rules count from them.
#[derive(Clone, Copy)]
pub struct Loader {
    pub section: u64, // the sections that are whole
    pub at: u64, // 8 * the words of the next one that have come, its count the first of them, + the bytes of the next word
    pub part: u64, // the number of those bytes
    pub tables: u64, // the four counts, 0 while unknown
    pub words: u64,
    pub headers: u64,
    pub slots: u64,
    pub note: LoadNote,
}

// The count of section s; 0 past the last.
// Form kept: a section is its number, since the loader's first word is, and the rules' field_of reads it so.
pub(crate) fn count_of(r: Loader, s: u64) -> u64
    ensures { result ≡ count_taken (loader_words r) s }
{
    match s {
        0 => r.tables,
        1 => r.words,
        2 => r.headers,
        3 => r.slots,
        _ => 0,
    }
}

// The limit of section s.
pub(crate) fn most_of(s: u64) -> u64
    ensures { (result ≡ most_of s) × (result ≤ 8160) }
{
    match s {
        0 => 8,
        1 => 8160,
        _ => 4096,
    }
}

// The words of c items of section s.
pub(crate) fn section_words(s: u64, c: u64) -> u64
    requires { c ≤ 8160 }
    ensures { (result ≡ section_words s c) × (result ≤ 73440) }
{
    match s {
        0 => c,
        1 => c,
        2 => 3 * c,
        _ => 9 * c,
    }
}

// The bytes of word f of the nine of a slot.
fn slot_width(f: u64) -> u64
    ensures { result ≡ slot_width f }
{
    match f {
        0 => 8,
        1 => 8,
        3 => 1,
        _ => 4,
    }
}

// The bytes of the next word, where f words of section s have come.
pub(crate) fn next_width(s: u64, f: u64) -> u64
    ensures { result ≡ next_width s f }
{
    if f == 0 {
        return 4;
    }
    if s < 3 {
        return 4;
    }
    slot_width((f - 1) % 9)
}

// 256 to the power k.
#[tactic(auto, using(crate::proofs::Tables::power_shifted))]
pub(crate) fn power(k: u64) -> u64
    requires { k ≤ 7 }
    ensures { result ≡ 256 ^ k }
{
    1 << (8 * k)
}

// How many counts have come.
fn counts_come(r: Loader) -> u64
    requires { r.section ≤ 4 }
    ensures { result ≡ counts_come (loader_words r) }
{
    if r.at / 8 == 0 {
        return r.section;
    }
    r.section + 1
}

// Whether the count of section s is in its range.
fn count_fits(r: Loader, s: u64) -> bool
    requires { r.section ≤ 4 }
    ensures { result ≡ count_fits (loader_words r) s }
{
    let count = count_of(r, s);
    let come = counts_come(r);
    if s < come {
        return count <= most_of(s);
    }
    count <= 0
}

// Whether the four counts are in their ranges.
fn counts_fit(r: Loader) -> bool
    requires { r.section ≤ 4 }
    ensures { CountsTold (loader_words r) result }
{
    for s in 0..4 {
        let fits = count_fits(r, s);
        if !fits {
            return false;
        }
    }
    true
}

// Whether the words are in their ranges.
pub(crate) fn fits_loader(r: Loader) -> bool
    ensures { result ≡ fits_loader (loader_words r) }
{
    if 4 < r.section {
        return false;
    }
    let counted = counts_fit(r);
    if !counted {
        return false;
    }
    let come = r.at / 8;
    let bytes = r.at % 8;
    let count = count_of(r, r.section);
    let all = section_words(r.section, count);
    if all < come {
        return false;
    }
    let width = next_width(r.section, come);
    if width <= bytes {
        return false;
    }
    let over = power(bytes);
    if over <= r.part {
        return false;
    }
    if r.section == 4 {
        return r.at == 0;
    }
    true
}

// The bytes of the first f words of a slot.
fn slot_long(f: u64) -> u64
    requires { f < 9 }
    ensures { (result ≡ slot_long f) × (result ≤ 41) }
{
    if f < 3 {
        return 8 * f;
    }
    if f == 3 {
        return 20;
    }
    4 * f + 5
}

// The bytes of the first j words of section s behind its count.
fn words_long(s: u64, j: u64) -> u64
    requires { j ≤ 73440 }
    ensures { (result ≡ words_long s j) × (result ≤ 400000) }
{
    if s < 3 {
        return 4 * j;
    }
    41 * (j / 9) + slot_long(j % 9)
}

// The bytes of the first f words of section s, its count the first of them.
fn begun_long(s: u64, f: u64) -> u64
    requires { f ≤ 73440 }
    ensures { (result ≡ begun_long s f) × (result ≤ 400004) }
{
    if f == 0 {
        return 0;
    }
    4 + words_long(s, f - 1)
}

// The bytes of section s, which is whole.
fn whole_long(r: Loader, s: u64) -> u64
    requires { FitLoader (loader_words r) }
    ensures { (result ≡ 4 + words_long s (section_words s (count_taken (loader_words r) s))) × (result ≤ 400004) }
{
    let count = count_of(r, s);
    4 + words_long(s, section_words(s, count))
}

// The bytes of the sections that are whole.
fn wholes_long(r: Loader) -> u64
    requires { FitLoader (loader_words r) }
    ensures { (result ≡ wholes_long (loader_words r) r.section) × (result ≤ 1600016) }
{
    let mut bytes: u64 = 0;
    for s in 0..r.section {
        bytes += whole_long(r, s);
    }
    bytes
}

// The bytes taken since the start.
pub(crate) fn taken_of(r: Loader) -> u32
    requires { FitLoader (loader_words r) }
    ensures { result ≡ taken_of (loader_words r) }
{
    let bytes = wholes_long(r) + (begun_long(r.section, r.at / 8) + r.at % 8);
    bytes as u32
}

// What a call answers: what is noted, or the bytes taken.
pub(crate) fn reply_of(r: Loader) -> LoadReply
    requires { FitLoader (loader_words r) }
    ensures { load_reply_of result ≡ loader_answer (loader_words r) }
{
    r.note.unwrap_or_else(|| Ok(taken_of(r)))
}

// The loader with an answer noted.
pub(crate) fn note_in(r: Loader, reply: LoadReply) -> Loader
    ensures { loader_words result ≡ note_in (loader_words r) (load_reply_of reply) }
{
    Loader {
        note: Some(reply),
        ..r
    }
}
