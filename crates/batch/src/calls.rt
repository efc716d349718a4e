// The words of a slice of calls: kind, hash, key, place. Only this file knows that they are four to a call.
ghost use Rattle.std.specs.Prelude.{◌≡◌};
ghost use Rattle.index_rules.specs.Batch.{call_word, calls_in, call_fits, all_fit, calls_fit};

use index::journal::{INSERT, MOST_PLACES, REMOVE, REPLACE};
use slots::word;

// The words of a call, by their place.
// Form kept: numbers, since the slice of calls is the C interface's, and the rules read word f of call k by its number (call_word).
pub(crate) const CALL_KIND: u32 = 0;

pub(crate) const CALL_HASH: u32 = 1;

pub(crate) const CALL_KEY: u32 = 2;

pub(crate) const CALL_PLACE: u32 = 3;

const CALL_WORDS: usize = 4;

// How many whole calls there are.
pub(crate) fn calls_in(calls: &[u64]) -> usize
    ensures { result ≡ calls_in calls.now }
{
    calls.len() / CALL_WORDS
}

// Word f of call k; 0 where there is no such word.
pub(crate) fn call_word(calls: &[u64], k: usize, f: u32) -> u64
    ensures { result ≡ call_word calls.now k f }
{
    if k < calls.len() {
        word(calls, CALL_WORDS * k + f as usize, 0)
    } else {
        0
    }
}

// Whether call k is a remove, or an insert or a replace with a place of 32 bits.
#[tactic(auto, unfolding(index_rules::specs::Batch::call_fits))]
fn call_fits(calls: &[u64], k: usize) -> bool
    ensures { result ≡ call_fits calls.now k }
{
    let kind = call_word(calls, k, CALL_KIND);
    let place = call_word(calls, k, CALL_PLACE);
    if kind == REMOVE {
        return true;
    }
    if kind == INSERT {
        return place < MOST_PLACES;
    }
    kind == REPLACE && place < MOST_PLACES
}

// Whether each of the first m calls is of a known kind.
fn all_fit(calls: &[u64], m: usize) -> bool
    ensures { result ≡ all_fit m calls.now }
{
    for k in (0..m).rev() {
        if !call_fits(calls, k) {
            return false;
        }
    }
    true
}

// Whether the slice is whole calls of known kinds, with an answer's word for each.
#[tactic(auto, unfolding(index_rules::specs::Batch::calls_fit))]
pub(crate) fn calls_fit(calls: &[u64], answers: &[u64]) -> bool
    ensures { result ≡ calls_fit calls.now answers.now }
{
    let m = calls_in(calls);
    if calls.len() != CALL_WORDS * m {
        return false;
    }
    if answers.len() < m {
        return false;
    }
    all_fit(calls, m)
}
