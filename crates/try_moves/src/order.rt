// Which slots belong in which half, read by hash and by links.
use crate::words::{CELLS, HEADS, NAMES, ROW};
use slots::{HASH, NEXT, NULL, get, name, put_word, word};

// The first slot of a bin in listing order, null where it has none.
pub fn first_of(w: u32, heads: &[u32; HEADS]) -> u32 {
    if w < 2 {
        return NULL;
    }
    if w < 4098 {
        return w - 2;
    }
    word(heads, 3 * (w - 4098) as usize + 1, NULL)
}

// Puts a slot into a row where its hash has this remainder, and answers how many the row then has.
fn choose(row: &mut [u32; ROW], many: u32, x: u32, hash: u64, length: u64, j: u64) -> u32 {
    if length == 0 || hash % length != j {
        return many;
    }
    put_word(row, many as usize, x);
    std::num::wrapping_add_u32(many, 1)
}

// The slots from a first one on whose hash has this remainder, in listing order; how many they are.
// Form kept: the room and how much of it is used stand side by side by the rule of no heap (nothing is allocated in the programs).
pub fn half(
    row: &mut [u32; ROW],
    names: &[u64; NAMES],
    cells: &[u32; CELLS],
    first: u32,
    length: u32,
    j: u32,
) -> u32 {
    let mut x = first;
    let mut many: u32 = 0;
    for _ in 0..ROW {
        if x == NULL {
            break;
        }
        let hash = name(names, x, HASH);
        many = choose(row, many, x, hash, length as u64, j as u64);
        x = get(cells, x, NEXT);
    }
    many
}
