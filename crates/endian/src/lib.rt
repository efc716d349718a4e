// Words read from bytes, the lowest byte first.
#![tactic(auto)]

ghost use Rattle.std.specs.Prelude.{◌≡◌, ℕ, ◌*◌, ◌<◌, length, map, drop, eqb};
ghost use Rattle.std.proofs.Common.{rules};
ghost use Rattle.slots.specs.Words.{pick};
ghost use Rattle.endian.specs.Bytes.{number_of, word_in, words_in};

// What a word of a row is: so many bytes, at least one, and what it is of its number.
pub trait Word: Copy {
    ghost WIDTH: { ℕ };

    const WIDTH: usize;

    ghost of: { ℕ → Self };

    // The word whose bytes these are; 0 where they are not so many.
    fn whole(bytes: &[u8]) -> Self
        ensures { result ≡ of (pick (eqb (length bytes.now) WIDTH) (number_of bytes.now) 0) };

    ghost some: { 0 < WIDTH };
}

impl Word for u64 {
    ghost WIDTH = { 8 };

    const WIDTH: usize = 8;

    ghost of = { λ n. n };

    ghost some = { Prim.search rules };

    fn whole(bytes: &[u8]) -> u64 {
        match <[u8; 8]>::try_from(bytes) {
            Ok(all) => u64::from_le_bytes(all),
            Err(_) => 0,
        }
    }
}

impl Word for u32 {
    ghost WIDTH = { 4 };

    const WIDTH: usize = 4;

    ghost of = { λ n. n };

    ghost some = { Prim.search rules };

    fn whole(bytes: &[u8]) -> u32 {
        match <[u8; 4]>::try_from(bytes) {
            Ok(all) => u32::from_le_bytes(all),
            Err(_) => 0,
        }
    }
}

// Word i; 0 where it is not whole.
pub fn word_at<T: Word>(bytes: &[u8], i: usize) -> T
    ensures { result ≡ T.of (word_in T.WIDTH bytes.now i) }
{
    if i < bytes.len() / T::WIDTH {
        let at = T::WIDTH * i;
        return T::whole(&bytes[at..at + T::WIDTH]);
    }
    T::whole(&[])
}

// Fills the words with those that the bytes begin with; 0 where they end.
pub fn read_words<T: Word>(words: &mut [T], bytes: &[u8])
    ensures { words.new ≡ map T.of (words_in T.WIDTH bytes.now 0 (length words.old)) }
{
    for i in 0..words.len() {
        words[i] = word_at(bytes, i);
    }
}

// The bytes behind so many words.
pub fn after_words<T: Word>(bytes: &[u8], count: usize) -> &[u8]
    ensures { result.now ≡ drop (T.WIDTH * count) bytes.now }
{
    if count <= bytes.len() / T::WIDTH {
        return &bytes[T::WIDTH * count..];
    }
    &[]
}
