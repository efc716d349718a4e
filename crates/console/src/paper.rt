// A lent buffer, written from the front. A byte that has no room is not written.
// Form kept: no Display, since a clause says byte for byte what stands in a lent slice, and the library has no heap.
ghost use Rattle.std.specs.Prelude.{◌≡◌};
ghost use Rattle.script_rules.specs.Text.{digits, decimal};
ghost use Rattle.script_rules.specs.Feeding.{typed_one, typed, lent_paper};
ghost use Rattle.index_rules.specs.Index.{lent};

// Writes a byte, and answers where the next one goes.
pub fn put_byte(out: &mut [u8], at: usize, b: u8) -> usize
    ensures { lent_paper out.new result ≡ typed_one (lent_paper out.old at) b }
{
    if at < out.len() {
        out[at] = b;
        return at + 1;
    }
    at
}

// The bytes of a word, written from a place on while there is room; where the next byte goes comes back.
#[tactic(auto, using(crate::proofs::Writing::word_writing))]
pub fn put_word(out: &mut [u8], at: usize, word: &[u8]) -> usize
    ensures { lent_paper out.new result ≡ typed (lent_paper out.old at) word.now }
{
    let mut end = at;
    for b in word {
        end = put_byte(out, end, *b);
    }
    end
}

// The decimal digits of x, at most so many.
#[tactic(auto, using(crate::proofs::Writing::number_writing))]
fn put_digits(out: &mut [u8], at: usize, x: u64, most: u32) -> usize
    ensures { lent_paper out.new result ≡ typed (lent_paper out.old at) (digits most x) }
{
    if most == 0 {
        return at;
    }
    if x < 10 {
        return put_byte(out, at, b'0' + x as u8);
    }
    let end = put_digits(out, at, x / 10, most - 1);
    put_byte(out, end, b'0' + (x % 10) as u8)
}

// The decimal digits of a number, written likewise.
pub fn put_number(out: &mut [u8], at: usize, x: u64) -> usize
    ensures { lent_paper out.new result ≡ typed (lent_paper out.old at) (decimal x) }
{
    put_digits(out, at, x, 20)
}
