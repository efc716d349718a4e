// A sample upload, with sections of 2, 1, 0 and 3 entries, and its trials: how it is changed, and what has to come of it.
use crate::cuts::more;
use slots::answer::packed;

// The bytes of the sample, and with four more.
pub(crate) const LENGTH: usize = 108;

pub(crate) const ROOM: usize = 112;

// The slots and the lines of an index that has room for the name of the start and the six entries.
const MOST: u32 = 8;

// The last byte of an entry is so far behind its first.
const REST: u32 = 15;

// The largest hash or key.
const LARGEST: u64 = 18446744073709551615;

// The offset of an entry's first byte, the entries counted from 0.
pub(crate) fn place_of(entry: u32) -> u32 {
    match entry {
        0 => 3,
        1 => 19,
        2 => 38,
        3 => 60,
        4 => 76,
        _ => 92,
    }
}

// The offset of the byte with which a section begins.
fn kind_byte(kind: u32) -> u32 {
    match kind {
        1 => 0,
        2 => 35,
        3 => 54,
        _ => 57,
    }
}

// The entries that are whole within so many bytes.
pub(crate) fn whole_within(count: usize) -> u32 {
    match count {
        0..=18 => 0,
        19..=34 => 1,
        35..=53 => 2,
        54..=75 => 3,
        76..=91 => 4,
        92..=107 => 5,
        _ => 6,
    }
}

// The pair that comes to a slot: to slot 0 that of the start, to each next one that of an entry.
pub(crate) fn hash_of(slot: u32) -> u64 {
    match slot {
        0 => 9,
        1 => 2,
        2 => LARGEST,
        3 => 9,
        4 => 72623859790382856,
        5 => 2,
        _ => 0,
    }
}

pub(crate) fn key_of(slot: u32) -> u64 {
    match slot {
        0 => 9,
        1 => 300,
        2 => 1,
        3 => LARGEST,
        4 => 1230066625199609624,
        5 => 299,
        _ => 0,
    }
}

pub(crate) fn put_byte(bytes: &mut [u8], offset: u32, byte: u8) {
    slots::put_word(bytes, offset as usize, byte);
}

// A hash or a key, its lowest byte first.
fn put_word(bytes: &mut [u8], from: u32, word: u64) {
    for (k, byte) in (0..).zip(word.to_le_bytes()) {
        put_byte(bytes, more(from, k), byte);
    }
}

// The pair of a slot as that of an entry.
pub(crate) fn put_pair(bytes: &mut [u8], entry: u32, slot: u32) {
    let place = place_of(entry);
    put_word(bytes, place, hash_of(slot));
    put_word(bytes, more(place, 8), key_of(slot));
}

// The kind byte of a section and the low byte of its count.
fn put_header(bytes: &mut [u8], kind: u8, count: u8) {
    let offset = kind_byte(kind as u32);
    put_byte(bytes, offset, kind);
    put_byte(bytes, more(offset, 1), count);
}

// The sample, where there are zeros.
pub(crate) fn fill(bytes: &mut [u8; ROOM]) {
    put_header(bytes, 1, 2);
    put_pair(bytes, 0, 1);
    put_pair(bytes, 1, 2);
    put_header(bytes, 2, 1);
    put_pair(bytes, 2, 3);
    put_header(bytes, 3, 0);
    put_header(bytes, 4, 3);
    put_pair(bytes, 3, 4);
    put_pair(bytes, 4, 5);
    put_pair(bytes, 5, 6);
}

#[derive(Clone, Copy)]
pub(crate) struct Trial {
    pub entry: u32, // this entry gets the pair of this slot
    pub slot: u32,
    pub spot: u32, // this byte is written over
    pub byte: u8,
    pub length: usize, // so many bytes are read
    pub slots: u32, // into an index of so many slots and lines
    pub lines: u32,
    pub at: usize, // from this byte on, and by the end call, it is answered this word
    pub told: u64,
    pub stay: u32, // so many entries stay
}

// What is told once so many bytes have come: up to the byte at, the entries taken.
pub(crate) fn due(trial: Trial, count: usize) -> u64 {
    if trial.at < count {
        return trial.told;
    }
    whole_within(count) as u64
}

// The sample as it is.
pub(crate) fn accepted() -> Trial {
    Trial {
        entry: 0,
        slot: 1,
        spot: 0,
        byte: 1,
        length: LENGTH,
        slots: MOST,
        lines: MOST,
        at: LENGTH,
        told: 6,
        stay: 6,
    }
}

// It is refused at a byte.
// Form kept: the number of each refusal is written here, so that the library's answers are held against it.
fn refused_at(at: usize, number: u32, value: u32) -> Trial {
    Trial {
        at,
        told: packed(number, value),
        stay: 0,
        ..accepted()
    }
}

// It is refused at an entry's last byte.
fn refused_in(entry: u32, number: u32, value: u32) -> Trial {
    let at = more(place_of(entry), REST);
    refused_at(at as usize, number, value)
}

// An entry gets the pair of another: 3 at the later of the two, with the slot of the other.
pub(crate) fn twice(k: u32) -> Trial {
    let entry = k / 5 % 6;
    let other = (entry + 1 + k % 5) % 6;
    Trial {
        entry,
        slot: other + 1,
        ..refused_in(entry.max(other), 3, more(entry.min(other), 1))
    }
}

// An entry gets the pair that was there.
pub(crate) fn there(entry: u32) -> Trial {
    Trial {
        entry,
        slot: 0,
        ..refused_in(entry, 3, 0)
    }
}

// There is no slot left for an entry.
pub(crate) fn full(entry: u32) -> Trial {
    Trial {
        slots: more(entry, 1),
        ..refused_in(entry, 5, 0)
    }
}

// There is no line left for it.
pub(crate) fn journal_full(entry: u32) -> Trial {
    Trial {
        lines: more(entry, 1),
        ..refused_in(entry, 6, 0)
    }
}

// The bytes end before section 4 is whole.
pub(crate) fn short(length: u32) -> Trial {
    Trial {
        length: length as usize,
        ..refused_at(length as usize, 12, 0)
    }
}

// One to four bytes more, the first of them each of the 256.
pub(crate) fn long(k: u32) -> Trial {
    Trial {
        spot: LENGTH as u32,
        byte: (k % 256) as u8,
        length: LENGTH + 1 + (k % 4) as usize,
        ..refused_at(LENGTH, 13, 0)
    }
}

// A section begins with each of the 255 bytes that are not its kind.
pub(crate) fn wrong_kind(k: u32) -> Trial {
    let kind = k / 255 % 4 + 1;
    let spot = kind_byte(kind);
    Trial {
        spot,
        byte: ((kind + 1 + k % 255) % 256) as u8,
        ..refused_at(spot as usize, 18, 0)
    }
}
