// A slot is seven words of a lent slice of cells, and two of a lent slice of names.
// Reads and writes are total: where there is no such word a read answers null (a name: 0) and a write does nothing,
// so that no function above needs a bound on a link.
#![tactic(auto)]

pub mod answer;

ghost use Rattle.std.specs.Prelude.{◌≡◌, eqb, get_or, set};
ghost use Rattle.slots.specs.Words.{pick, state, black, red, code, cell, write, name_of, rename};
ghost use Rattle.slots.specs.Pairs.{before};

pub const NULL: u32 = 4294967295;

// The limits: slots of a tree or a set, lines of a journal; the names and cells of so many slots.
pub const MOST_SLOTS: usize = 4096;

pub const MOST_LINES: usize = 1024;

pub const MOST_NAMES: usize = 8192;

pub const MOST_CELLS: usize = 28672;

// The fields of a slot, by their place in its seven words.
// Form kept: numbers here, and for the states, the parts and the header below, since C and Rust read these words by place, and `cell` and
// `name_of`, which the contracts equal, take any number for a field.
pub const PLACE: u32 = 0;

pub const STATE: u32 = 1;

pub const PARENT: u32 = 2;

pub const LEFT: u32 = 3;

pub const RIGHT: u32 = 4;

pub const PREV: u32 = 5;

pub const NEXT: u32 = 6;

// The states of a slot.
pub const FREE: u32 = 0;

pub const BLACK: u32 = 1;

pub const RED: u32 = 2;

// The parts of a slot's name.
pub const HASH: u32 = 0;

pub const KEY: u32 = 1;

// The words of a tree's header, by their place.
pub const ROOT: usize = 0;

pub const FIRST: usize = 1;

pub const COUNT: usize = 2;

// Word k; none where there is no such word.
pub fn word<T: Copy>(words: &[T], k: usize, none: T) -> T
    ensures { result ≡ get_or words.now k none }
{
    match words.get(k) {
        Some(word) => *word,
        None => none,
    }
}

// Writes word k; nothing where there is no such word.
pub fn put_word<T: Copy>(words: &mut [T], k: usize, v: T)
    ensures { words.new ≡ set words.old k v }
{
    if k < words.len() {
        words[k] = v;
    }
}

// The field f of slot i; null where there is no such word.
pub fn get(cells: &[u32], i: u32, f: u32) -> u32
    ensures { result ≡ cell cells.now i f }
{
    word(cells, 7 * (i as usize) + (f as usize), NULL)
}

// Writes v to the field f of slot i; nothing where there is no such word.
pub fn put(cells: &mut [u32], i: u32, f: u32, v: u32)
    ensures { cells.new ≡ write cells.old i f v }
{
    put_word(cells, 7 * (i as usize) + (f as usize), v);
}

// The part f of slot i's name, its hash or its key; 0 where there is no such word.
pub fn name(names: &[u64], i: u32, f: u32) -> u64
    ensures { result ≡ name_of names.now i f }
{
    word(names, 2 * (i as usize) + (f as usize), 0)
}

// Writes the part f of slot i's name; nothing where there is no such word.
pub fn put_name(names: &mut [u64], i: u32, f: u32, v: u64)
    ensures { names.new ≡ rename names.old i f v }
{
    put_word(names, 2 * (i as usize) + (f as usize), v);
}

// Whether slot i is red: a state other than red is not.
pub fn is_red(cells: &[u32], i: u32) -> bool
    ensures { result ≡ eqb (cell cells.now i state) 2 }
{
    get(cells, i, STATE) == RED
}

// The colour of slot i, as it is written: red or black, and never a copy of the word.
// Form kept: a number, since it is the word that `put` writes; its contract equals `code` of a colour.
pub fn colour(cells: &[u32], i: u32) -> u32
    ensures { result ≡ code (pick (eqb (cell cells.now i state) 2) red black) }
{
    if is_red(cells, i) { RED } else { BLACK }
}

// Whether the pair (hash, key) comes before (at, own): by hash, then key.
// Form kept: (hash, key) < (at, own) is proved too, but 200 million took 0.46 s against 0.39 s, and the full check makes one a slot.
pub fn comes_before(hash: u64, key: u64, at: u64, own: u64) -> bool
    ensures { result ≡ before hash key at own }
{
    hash < at || (hash <= at && key < own)
}
