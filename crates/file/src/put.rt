// Numbers, words and slots as bytes, the lowest byte first, written from a place on.
ghost use Rattle.std.specs.Prelude.{◌≡◌, [], ◌++◌, ◌+◌, ◌*◌, ◌/◌, ◌%◌, ◌≤◌, length};
ghost use Rattle.std.proofs.lemmas.List.Edits.{sets};
ghost use Rattle.slots.specs.Words.{cell, name_of, hash_part, key_part};
ghost use Rattle.endian.specs.Bytes.{little, words_bytes};
ghost use Rattle.set_rules.specs.Words.{lent_set};
ghost use Rattle.file_rules.specs.File.{slot_bytes, slots_bytes, set_bytes};
ghost use Rattle.file.specs.Links.{links_bytes};
ghost use Rattle.file.specs.Room.{FileRoom};

use slots::{HASH, KEY, LEFT, NEXT, PARENT, PLACE, PREV, RIGHT, STATE, get, name};

// The lowest byte of a number.
fn low_byte(x: u64) -> u8
    ensures { result ≡ x % 256 }
{
    (x % 256) as u8
}

// So many bytes of a number.
// Form kept: the file's bytes have room by its clause, the dump's are written while there is room, as all that is said; and byte by
// byte, as little is said, since to_le_bytes gives eight bytes, whatever k.
fn put_little(out: &mut [u8], at: usize, k: usize, x: u64)
    requires { at + k ≤ length out.old }
    ensures { out.new ≡ sets out.old at (little k x) }
{
    let mut rest = x;
    for i in 0..k {
        out[at + i] = low_byte(rest);
        rest /= 256;
    }
}

// Words of four bytes each.
fn put_words(out: &mut [u8], at: usize, words: &[u32])
    requires { at + 4 * length words.now ≤ length out.old }
    ensures { out.new ≡ sets out.old at (words_bytes 4 words.now) }
{
    for (i, word) in words.iter().enumerate() {
        put_little(out, at + 4 * i, 4, *word as u64);
    }
}

// A cell of slot i, in so many bytes.
fn put_cell(out: &mut [u8], at: usize, k: usize, cells: &[u32], i: u32, f: u32)
    requires { at + k ≤ length out.old }
    ensures { out.new ≡ sets out.old at (little k (cell cells.now i f)) }
{
    put_little(out, at, k, get(cells, i, f) as u64)
}

// The hash and the key of slot i.
fn put_pair(out: &mut [u8], at: usize, names: &[u64], i: u32)
    requires { at + 16 ≤ length out.old }
    ensures { out.new
        ≡ sets out.old at
        (little 8 (name_of names.now i hash_part) ++ little 8 (name_of names.now i key_part)) }
{
    put_little(out, at, 8, name(names, i, HASH));
    put_little(out, at + 8, 8, name(names, i, KEY))
}

// The five links of slot i.
fn put_links(out: &mut [u8], at: usize, cells: &[u32], i: u32)
    requires { at + 20 ≤ length out.old }
    ensures { out.new ≡ sets out.old at (links_bytes cells.now i) }
{
    put_cell(out, at, 4, cells, i, PARENT);
    put_cell(out, at + 4, 4, cells, i, LEFT);
    put_cell(out, at + 8, 4, cells, i, RIGHT);
    put_cell(out, at + 12, 4, cells, i, PREV);
    put_cell(out, at + 16, 4, cells, i, NEXT)
}

// Slot i.
fn put_slot(out: &mut [u8], at: usize, names: &[u64], cells: &[u32], i: u32)
    requires { at + 41 ≤ length out.old }
    ensures { out.new
        ≡ sets out.old at (slot_bytes (lent_set [] [] [] names.now cells.now) i) }
{
    put_pair(out, at, names, i);
    put_cell(out, at + 16, 4, cells, i, PLACE);
    put_cell(out, at + 20, 1, cells, i, STATE);
    put_links(out, at + 21, cells, i)
}

// All slots.
fn put_slots(out: &mut [u8], at: usize, names: &[u64], cells: &[u32])
    requires { (at + 41 * (length names.now / 2) ≤ length out.old) × (length names.now ≤ 8192) }
    ensures { out.new
        ≡ sets out.old at
        (slots_bytes (lent_set [] [] [] names.now cells.now) (length names.now / 2)) }
{
    for i in 0..names.len() / 2 {
        put_slot(out, at + 41 * i, names, cells, i as u32);
    }
}

// A section of words, after its count.
fn put_section(out: &mut [u8], at: usize, count: u64, words: &[u32])
    requires { at + (4 + 4 * length words.now) ≤ length out.old }
    ensures { out.new ≡ sets out.old at (little 4 count ++ words_bytes 4 words.now) }
{
    put_little(out, at, 4, count);
    put_words(out, at + 4, words)
}

// The section of slots, after its count.
fn put_slot_section(out: &mut [u8], at: usize, names: &[u64], cells: &[u32])
    requires { (at + (4 + 41 * (length names.now / 2)) ≤ length out.old) × (length names.now ≤ 8192) }
    ensures { out.new
        ≡ sets out.old at
        (little 4 (length names.now / 2)
        ++ slots_bytes (lent_set [] [] [] names.now cells.now) (length names.now / 2)) }
{
    put_little(out, at, 4, (names.len() / 2) as u64);
    put_slots(out, at + 4, names, cells)
}

// The file of a set, where there is room for it.
pub(crate) fn put_set(
    lengths: &[u32],
    bins: &[u32],
    heads: &[u32],
    names: &[u64],
    cells: &[u32],
    out: &mut [u8],
)
    requires { FileRoom (length lengths.now) (length bins.now) (length heads.now) (length names.now) (length out.old) }
    ensures { out.new
        ≡ sets out.old 0
        (set_bytes (lent_set lengths.now bins.now heads.now names.now cells.now)) }
{
    let second = 4 + 4 * lengths.len();
    let third = second + (4 + 4 * bins.len());
    let fourth = third + (4 + 4 * heads.len());
    put_section(out, 0, lengths.len() as u64, lengths);
    put_section(out, second, bins.len() as u64, bins);
    put_section(out, third, (heads.len() / 3) as u64, heads);
    put_slot_section(out, fourth, names, cells)
}
