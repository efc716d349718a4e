// What one byte does to the loader and the slices.
ghost use Rattle.std.specs.Prelude.{◌≡◌, [], ◌/◌, ◌^◌, ◌<◌, ◌≤◌, set, eqb};
ghost use Rattle.slots.specs.Words.{pick};
ghost use Rattle.set_rules.specs.Words.{lent_set};
ghost use Rattle.file_rules.specs.Layout.{slot_width, slot_field, field_of, put_field};
ghost use Rattle.file_rules.specs.Loader.{FitLoader, count_taken, next_width};
ghost use Rattle.file_rules.specs.Loading.{loading, loader_at, after_words, with_count, with_byte, word_came, byte_stored};
ghost use Rattle.file.specs.Meanings.{loader_words};

use crate::clear::refuse;
use crate::loader::{Loader, count_of, next_width, power, section_words};
use crate::reply::LoadRefusal;
use crate::room::may_count;
use slots::put_word;

// A word of a section of words of four bytes.
fn put_four(words: &mut [u32], j: u64, v: u64)
    requires { (j ≤ 73440) × (v < 4294967296) }
    ensures { words.new ≡ set words.old j v }
{
    put_word(words, j as usize, v as u32)
}

// Word f of the nine of slot i.
fn put_slot_word(names: &mut [u64], cells: &mut [u32], i: u64, f: u64, v: u64)
    requires { (i ≤ 8160) × (f < 9) × (v < 256 ^ slot_width f) }
    ensures { lent_set [] [] [] names.new cells.new
        ≡ put_field (lent_set [] [] [] names.old cells.old) (slot_field i f) v }
{
    if f < 2 {
        return put_word(names, (2 * i + f) as usize, v);
    }
    put_four(cells, 7 * i + (f - 2), v)
}

// Word j of section s.
// Form kept: a section is its number, as in count_of.
fn put_field(
    lengths: &mut [u32],
    bins: &mut [u32],
    heads: &mut [u32],
    names: &mut [u64],
    cells: &mut [u32],
    s: u64,
    j: u64,
    v: u64,
)
    requires { (j ≤ 73440) × (v < 256 ^ (field_of s j).width) }
    ensures { lent_set lengths.new bins.new heads.new names.new cells.new
        ≡ put_field (lent_set lengths.old bins.old heads.old names.old cells.old)
        (field_of s j) v }
{
    if s == 0 {
        return put_four(lengths, j, v);
    }
    if s == 1 {
        return put_four(bins, j, v);
    }
    if s == 2 {
        return put_four(heads, j, v);
    }
    put_slot_word(names, cells, j / 9, j % 9, v)
}

// The loader at another place of the file.
fn loader_at(r: Loader, section: u64, at: u64, part: u64) -> Loader
    ensures { loader_words result ≡ loader_at (loader_words r) section at part }
{
    Loader {
        section,
        at,
        part,
        note: None,
        ..r
    }
}

// The loader after f words of its section.
pub(crate) fn after_words(r: Loader, f: u64) -> Loader
    requires { (r.section < 4) × (f ≤ 73441) × (count_taken (loader_words r) r.section ≤ 8160) }
    ensures { loader_words result ≡ after_words (loader_words r) f }
{
    let count = count_of(r, r.section);
    let all = section_words(r.section, count);
    if f == all + 1 {
        return loader_at(r, r.section + 1, 0, 0);
    }
    loader_at(r, r.section, 8 * f, 0)
}

// A count, where it stands among the four.
fn counted(s: u64, own: u64, c: u64, count: u64) -> u64
    ensures { result ≡ pick (eqb s own) c count }
{
    if s == own {
        return c;
    }
    count
}

// The loader with a count taken.
fn with_count(r: Loader, c: u64) -> Loader
    requires { r.section < 4 }
    ensures { loader_words result ≡ with_count (loader_words r) c }
{
    let s = r.section;
    Loader {
        tables: counted(s, 0, c, r.tables),
        words: counted(s, 1, c, r.words),
        headers: counted(s, 2, c, r.headers),
        slots: counted(s, 3, c, r.slots),
        note: None,
        ..r
    }
}

// A count that is whole.
fn take_count(
    lengths: &mut [u32],
    bins: &mut [u32],
    heads: &mut [u32],
    names: &mut [u64],
    cells: &mut [u32],
    r: Loader,
    c: u64,
) -> Loader
    requires { FitLoader (loader_words r) × (r.section < 4) }
    ensures { loading (loader_words result)
        (lent_set lengths.new bins.new heads.new names.new cells.new)
        ≡ word_came (loader_words r)
        (lent_set lengths.old bins.old heads.old names.old cells.old) 0 c }
{
    let may = may_count(lengths, bins, heads, names, cells, r.section, c);
    if !may {
        return refuse(
            lengths,
            bins,
            heads,
            names,
            cells,
            r,
            LoadRefusal::OverLimit,
        );
    }
    let counted = with_count(r, c);
    after_words(counted, 1)
}

// A word that is whole, where f words of the section have come before it.
fn take_word(
    lengths: &mut [u32],
    bins: &mut [u32],
    heads: &mut [u32],
    names: &mut [u64],
    cells: &mut [u32],
    r: Loader,
    f: u64,
    v: u64,
) -> Loader
    requires { FitLoader (loader_words r) × (r.section < 4) × (f ≡ r.at / 8) × (v < 256 ^ next_width r.section f) }
    ensures { loading (loader_words result)
        (lent_set lengths.new bins.new heads.new names.new cells.new)
        ≡ word_came (loader_words r)
        (lent_set lengths.old bins.old heads.old names.old cells.old) f v }
{
    if f == 0 {
        return take_count(lengths, bins, heads, names, cells, r, v);
    }
    put_field(lengths, bins, heads, names, cells, r.section, f - 1, v);
    after_words(r, f + 1)
}

// A word's bytes so far, with one more on top.
fn with_byte(r: Loader, b: u8) -> u64
    requires { FitLoader (loader_words r) }
    ensures { result ≡ with_byte (loader_words r) b }
{
    r.part + power(r.at % 8) * b as u64
}

// A byte, nothing being noted.
pub(crate) fn take_byte(
    lengths: &mut [u32],
    bins: &mut [u32],
    heads: &mut [u32],
    names: &mut [u64],
    cells: &mut [u32],
    r: Loader,
    b: u8,
) -> Loader
    requires { FitLoader (loader_words r) }
    ensures { loading (loader_words result)
        (lent_set lengths.new bins.new heads.new names.new cells.new)
        ≡ byte_stored (loader_words r)
        (lent_set lengths.old bins.old heads.old names.old cells.old) b }
{
    if r.section == 4 {
        return refuse(lengths, bins, heads, names, cells, r, LoadRefusal::Long);
    }
    let come = r.at / 8;
    let width = next_width(r.section, come);
    let part = with_byte(r, b);
    if r.at % 8 + 1 < width {
        return loader_at(r, r.section, r.at + 1, part);
    }
    take_word(lengths, bins, heads, names, cells, r, come, part)
}
