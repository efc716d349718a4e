// Sentences with blanks, written to a lent buffer: `#` stands for a number, `@` for a link, `%` for the name of a slot's field.
ghost use Rattle.std.specs.Prelude.{◌≡◌};
ghost use Rattle.script_rules.specs.Blanks.{link_text, field_text, piece, is_blank as stands_for, blanks_filled};
ghost use Rattle.script_rules.specs.Feeding.{typed, lent_paper};

use crate::paper::{put_byte, put_number, put_word};
use slots::{NULL, word};

// A slot's number, or that there is none.
#[tactic(auto, unfolding(script_rules::specs::Blanks::link_text))]
fn put_link(out: &mut [u8], at: usize, i: u64) -> usize
    ensures { lent_paper out.new result ≡ typed (lent_paper out.old at) (link_text i) }
{
    if i == NULL as u64 {
        return put_word(out, at, b"null");
    }
    put_number(out, at, i)
}

// The name of a slot's field.
// Form kept: the fields are numbers in a slot's words, and the numbers of a sentence are words of 64 bits.
#[tactic(auto, unfolding(script_rules::specs::Blanks::field_text))]
fn put_field(out: &mut [u8], at: usize, f: u64) -> usize
    ensures { lent_paper out.new result ≡ typed (lent_paper out.old at) (field_text f) }
{
    match f {
        0 => put_word(out, at, b"place"),
        1 => put_word(out, at, b"state"),
        2 => put_word(out, at, b"parent"),
        3 => put_word(out, at, b"left"),
        4 => put_word(out, at, b"right"),
        5 => put_word(out, at, b"prev"),
        _ => put_word(out, at, b"next"),
    }
}

// A byte of a sentence, or the number that it is a blank for.
#[tactic(auto, using(script_rules::proofs::Typing::typed_one_lem), unfolding(script_rules::specs::Blanks::piece))]
fn put_piece(out: &mut [u8], at: usize, b: u8, v: u64) -> usize
    ensures { lent_paper out.new result ≡ typed (lent_paper out.old at) (piece b v) }
{
    match b {
        b'#' => put_number(out, at, v),
        b'@' => put_link(out, at, v),
        b'%' => put_field(out, at, v),
        _ => put_byte(out, at, b),
    }
}

// The byte is a blank.
#[tactic(auto, unfolding(script_rules::specs::Blanks::is_blank))]
fn is_blank(b: u8) -> bool
    ensures { result ≡ stands_for b }
{
    matches!(b, b'#' | b'@' | b'%')
}

// A sentence with a number for each of its blanks, in their order; 0 where there is none left.
#[tactic(auto, using(crate::proofs::Writing::blank_filling))]
pub fn fill(out: &mut [u8], at: usize, sentence: &[u8], numbers: &[u64]) -> usize
    ensures { lent_paper out.new result
        ≡ typed (lent_paper out.old at) (blanks_filled sentence.now numbers.now) }
{
    let mut end = at;
    let mut k = 0;
    for &b in sentence {
        end = put_piece(out, end, b, word(numbers, k, 0));
        if is_blank(b) {
            k += 1;
        }
    }
    end
}
