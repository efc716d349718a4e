// Whole words and whole slots of a chunk, read in one loop into the unfilled tail of a section's slices.
ghost use Rattle.std.specs.Prelude.{◌≡◌, true, List, [], ℕ, ◌-◌, ◌*◌, ◌/◌, ◌<◌, ◌≤◌, min, length};
ghost use Rattle.std.proofs.lemmas.List.Edits.{sets};
ghost use Rattle.endian.specs.Bytes.{words_in};
ghost use Rattle.set_rules.specs.Words.{lent_set};
ghost use Rattle.file_rules.specs.Layout.{field_of, slice_in};
ghost use Rattle.file_rules.specs.Loading.{loading, GoesOn};
ghost use Rattle.file.specs.Meanings.{loader_words};
ghost use Rattle.file.specs.Runs.{words_put, slot_names, slot_links, slot_cells, slots_names, slots_cells};
ghost use Rattle.file.specs.Runs.{StepTaken, WordsReady, SlotsReady};

use crate::bytes::{after_words, take_byte};
use crate::loader::{Loader, count_of, section_words};
use endian::{read_words, word_at};
use slots::put_word;

// A loader amid a chunk, and the bytes that it took.
#[derive(Clone, Copy)]
pub(crate) struct Taking {
    pub loader: Loader,
    pub used: usize,
}

// Words of four bytes each into a slice from a word on, up to another, as many as the bytes have.
fn read_tail(words: &mut [u32], from: usize, end: usize, rest: &[u8]) -> usize
    requires { (from ≤ end) × (end ≤ length words.old) }
    ensures { (result ≡ min (end - from) (length rest.now / 4))
        × (words.new ≡ sets words.old from (words_in 4 rest.now 0 result)) }
{
    let n = (end - from).min(rest.len() / 4);
    read_words(&mut words[from..from + n], rest);
    n
}

// The tail of the section's slice.
// Form kept: a section is its number, as in count_of.
fn read_section(
    lengths: &mut [u32],
    bins: &mut [u32],
    heads: &mut [u32],
    s: u64,
    from: usize,
    end: usize,
    rest: &[u8],
) -> usize
    requires { (s < 3) × (from ≤ end) × (end ≤ length
        (slice_in (lent_set lengths.old bins.old heads.old [] []) (field_of s 0).slice)) }
    ensures { (result ≡ min (end - from) (length rest.now / 4))
        × ((names cells : List ℕ) → lent_set lengths.new bins.new heads.new names cells
        ≡ words_put (lent_set lengths.old bins.old heads.old names cells) s from
        (words_in 4 rest.now 0 result)) }
{
    if s == 0 {
        return read_tail(lengths, from, end, rest);
    }
    if s == 1 {
        return read_tail(bins, from, end, rest);
    }
    read_tail(heads, from, end, rest)
}

// The hash and the key of slot i.
fn read_pair(names: &mut [u64], i: usize, bytes: &[u8])
    requires { i ≤ 8160 }
    ensures { names.new ≡ slot_names names.old i bytes.now }
{
    put_word(names, 2 * i, word_at(bytes, 0));
    put_word(names, 2 * i + 1, word_at(bytes, 1));
}

// The five links of slot i.
fn read_links(cells: &mut [u32], i: usize, bytes: &[u8])
    requires { i ≤ 8160 }
    ensures { cells.new ≡ slot_links cells.old i bytes.now }
{
    put_word(cells, 7 * i + 2, word_at(bytes, 0));
    put_word(cells, 7 * i + 3, word_at(bytes, 1));
    put_word(cells, 7 * i + 4, word_at(bytes, 2));
    put_word(cells, 7 * i + 5, word_at(bytes, 3));
    put_word(cells, 7 * i + 6, word_at(bytes, 4));
}

// The slot of 41 bytes, as slot i.
fn read_slot(names: &mut [u64], cells: &mut [u32], i: usize, bytes: &[u8])
    requires { (i ≤ 8160) × (41 ≤ length bytes.now) }
    ensures { (names.new ≡ slot_names names.old i bytes.now)
        × (cells.new ≡ slot_cells cells.old i bytes.now) }
{
    read_pair(names, i, bytes);
    put_word(cells, 7 * i, word_at(bytes, 4));
    put_word(cells, 7 * i + 1, bytes[20] as u32);
    read_links(cells, i, &bytes[21..]);
}

// So many slots.
fn read_slots(names: &mut [u64], cells: &mut [u32], n: usize, rest: &[u8])
    requires { (n ≤ 8160) × (41 * n ≤ length rest.now) }
    ensures { (names.new ≡ slots_names names.old 0 rest.now n)
        × (cells.new ≡ slots_cells cells.old 0 rest.now n) }
{
    for i in 0..n {
        read_slot(names, cells, i, &rest[41 * i..41 * i + 41]);
    }
}

// Whether the bytes begin with a word of a section of words.
fn words_ready(r: Loader, left: usize) -> bool
    ensures { result ≡ true → WordsReady (loader_words r) left }
{
    if 2 < r.section {
        return false;
    }
    if r.at % 8 != 0 {
        return false;
    }
    if r.at < 8 {
        return false;
    }
    4 <= left
}

// Whether the bytes begin with a slot.
fn slots_ready(r: Loader, left: usize) -> bool
    ensures { result ≡ true → SlotsReady (loader_words r) left }
{
    if r.section != 3 {
        return false;
    }
    if r.at % 72 != 8 {
        return false;
    }
    41 <= left
}

// The bytes that are taken at once: all where an answer is noted, whole words, whole slots, or else one.
pub(crate) fn step(
    lengths: &mut [u32],
    bins: &mut [u32],
    heads: &mut [u32],
    names: &mut [u64],
    cells: &mut [u32],
    r: Loader,
    rest: &[u8],
) -> Taking
    requires { GoesOn (loading (loader_words r) (lent_set lengths.old bins.old heads.old names.old cells.old))
        × (1 ≤ length rest.now) }
    ensures { StepTaken
        (loading (loader_words r)
        (lent_set lengths.old bins.old heads.old names.old cells.old))
        rest.now result.used
        (loading (loader_words result.loader)
        (lent_set lengths.new bins.new heads.new names.new cells.new)) }
{
    if r.note.is_some() {
        return Taking {
            loader: r,
            used: rest.len(),
        };
    }
    let words = words_ready(r, rest.len());
    if words {
        let come = r.at / 8;
        let count = count_of(r, r.section);
        let end = section_words(r.section, count);
        let n = read_section(
            lengths,
            bins,
            heads,
            r.section,
            (come - 1) as usize,
            end as usize,
            rest,
        );
        let loader = after_words(r, come + n as u64);
        return Taking {
            loader,
            used: 4 * n,
        };
    }
    let slots = slots_ready(r, rest.len());
    if slots {
        let come = r.at / 8;
        let from = (r.at / 72) as usize;
        let n = (r.slots as usize - from).min(rest.len() / 41);
        read_slots(&mut names[2 * from..], &mut cells[7 * from..], n, rest);
        let loader = after_words(r, come + 9 * n as u64);
        return Taking {
            loader,
            used: 41 * n,
        };
    }
    let loader = take_byte(lengths, bins, heads, names, cells, r, rest[0]);
    Taking { loader, used: 1 }
}
