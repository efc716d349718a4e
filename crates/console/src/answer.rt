// What a command does to the tree and the journal, and what is printed for it.
ghost use Rattle.std.specs.Prelude.{◌≡◌};
ghost use Rattle.index_rules.specs.Live.{lent_tree, unsized};
ghost use Rattle.index_rules.specs.Find.{finds};
ghost use Rattle.index_rules.specs.Index.{lent};
ghost use Rattle.slots.specs.Coded.{answer_of, value_of};
ghost use Rattle.tree_rules.specs.Find.{counted as countedLooks};
ghost use Rattle.tree.specs.Find.{searched_of};
ghost use Rattle.script_rules.specs.Answers.{numbered, number_line, told, search_line};
ghost use Rattle.script_rules.specs.Answers.{met, entry_line, entry_lines, list_text, marking};
ghost use Rattle.script_rules.specs.Feeding.{typed, performed, lent_paper, lent_turn};
ghost use Rattle.console.specs.Phrases.{command_of};

use crate::paper::{put_byte, put_number, put_word};
use crate::read::Command;
use index::find::find;
use index::fit::fit;
use index::insert::insert;
use index::journal::{fit_journal, length_of};
use index::remove::remove;
use index::rollback::rollback;
use slots::answer::{Answer, Answers};
use slots::{FIRST, HASH, KEY, NEXT, NULL, PLACE, get, name, word};
use tree::find::Found;

// A word and a number, and the line ends.
#[tactic(auto, using(script_rules::proofs::Typing::word_number_end))]
pub(crate) fn tell(out: &mut [u8], at: usize, word: &[u8], v: u64) -> usize
    ensures { lent_paper out.new result ≡ typed (lent_paper out.old at) (number_line word.now v) }
{
    let number = put_word(out, at, word);
    let end = put_number(out, number, v);
    put_byte(out, end, b'\n')
}

// What a call answers: a refusal with its number, else the value after the word, or that there is none.
#[tactic(auto, unfolding(script_rules::specs::Answers::told))]
fn tell_answer(out: &mut [u8], at: usize, word: &[u8], answer: Answer) -> usize
    ensures { lent_paper out.new result
        ≡ typed (lent_paper out.old at) (told word.now (answer_of answer)) }
{
    if answer.number != 0 {
        return tell(out, at, b"no ", answer.number as u64);
    }
    match answer.value {
        Some(v) => tell(out, at, word, v as u64),
        None => put_word(out, at, b"none\n"),
    }
}

// How many slots are met from first by next, over n slots; none where the chain cannot be followed.
#[tactic(auto, using(crate::proofs::Listing::counting))]
fn count_chain(n: usize, cells: &[u32], first: u32) -> Option<usize>
    ensures { value_of result ≡ met n n cells.now first }
{
    let mut i = first;
    for count in 0..n {
        if i == NULL {
            return Some(count);
        }
        if n <= i as usize {
            return None;
        }
        i = get(cells, i, NEXT);
    }
    if i == NULL { Some(n) } else { None }
}

// The line of slot i: hash, key, place.
#[tactic(auto, using(crate::proofs::Listing::entry_typed))]
fn tell_entry(out: &mut [u8], at: usize, names: &[u64], cells: &[u32], i: u32) -> usize
    ensures { lent_paper out.new result
        ≡ typed (lent_paper out.old at) (entry_line names.now cells.now i) }
{
    let hash = name(names, i, HASH);
    let key = name(names, i, KEY);
    let place = get(cells, i, PLACE);
    let after_hash = put_number(out, at, hash);
    let before_key = put_byte(out, after_hash, b' ');
    let after_key = put_number(out, before_key, key);
    let before_place = put_byte(out, after_key, b' ');
    let after_place = put_number(out, before_place, place as u64);
    put_byte(out, after_place, b'\n')
}

// The lines of so many slots, from first by next.
#[tactic(auto, using(crate::proofs::Listing::entries))]
fn tell_entries(
    out: &mut [u8],
    at: usize,
    names: &[u64],
    cells: &[u32],
    first: u32,
    count: usize,
) -> usize
    ensures { lent_paper out.new result
        ≡ typed (lent_paper out.old at) (entry_lines count names.now cells.now first) }
{
    let mut end = at;
    let mut i = first;
    for _ in 0..count {
        end = tell_entry(out, end, names, cells, i);
        i = get(cells, i, NEXT);
    }
    end
}

// The list of the index, or why there is none.
// Form kept: 1 and 9 are numbers, since the script prints a refusal by its number, and list_text in script_rules is over it.
#[tactic(auto, unfolding(script_rules::specs::Answers::list_text))]
pub(crate) fn tell_list(
    out: &mut [u8],
    at: usize,
    names: &[u64],
    cells: &[u32],
    head: &[u32],
    sizes: &[u32],
) -> usize
    ensures { lent_paper out.new result
        ≡ typed (lent_paper out.old at)
        (list_text (lent_tree names.now cells.now head.now sizes.now)) }
{
    if !fit(names, cells, head, sizes) {
        return tell(out, at, b"no ", 1);
    }
    let first = word(head, FIRST, NULL);
    let Some(count) = count_chain(names.len() / 2, cells, first) else {
        return tell(out, at, b"no ", 9);
    };
    let lines = tell(out, at, b"entries ", count as u64);
    tell_entries(out, lines, names, cells, first, count)
}

// The mark, which is the journal's length, or that the slices do not fit.
// Form kept: 1 is a number, since the script prints a refusal by its number, and marking in script_rules is over it.
#[tactic(auto, unfolding(script_rules::specs::Answers::marking, index_rules::specs::Index::fits_index))]
fn tell_mark(
    out: &mut [u8],
    at: usize,
    names: &[u64],
    cells: &[u32],
    head: &[u32],
    sizes: &[u32],
    lines: &[u64],
) -> usize
    ensures { lent_paper out.new result
        ≡ typed (lent_paper out.old at)
        (marking (lent names.now cells.now head.now sizes.now lines.now)) }
{
    if !fit(names, cells, head, sizes) {
        return tell(out, at, b"no ", 1);
    }
    if !fit_journal(lines) {
        return tell(out, at, b"no ", 1);
    }
    let length = length_of(lines);
    tell(out, at, b"mark ", length)
}

// A word and a number.
#[tactic(auto, using(script_rules::proofs::Typing::typed_append))]
fn put_numbered(out: &mut [u8], at: usize, word: &[u8], v: u64) -> usize
    ensures { lent_paper out.new result ≡ typed (lent_paper out.old at) (numbered word.now v) }
{
    let end = put_word(out, at, word);
    put_number(out, end, v)
}

// A search's end, and last on the line how many slots were looked at.
fn tell_search(out: &mut [u8], at: usize, found: Found<u32>) -> usize
    ensures { lent_paper out.new result ≡ typed (lent_paper out.old at) (search_line (searched_of found)) }
{
    match found {
        Found::At(slot, looks) => {
            let end = put_numbered(out, at, b"at ", slot as u64);
            tell(out, end, b" ", looks as u64)
        }
        Found::Nothing(looks) => {
            let end = put_word(out, at, b"none");
            tell(out, end, b" ", looks as u64)
        }
        Found::Lost(looks) => {
            let end = put_numbered(out, at, b"no ", 9);
            tell(out, end, b" ", looks as u64)
        }
    }
}

// `?`: only reads. A refusal before the search has no looks.
#[tactic(auto, unfolding(script_rules::specs::Answers::search_line))]
fn tell_find(
    out: &mut [u8],
    at: usize,
    names: &[u64],
    cells: &[u32],
    head: &[u32],
    hash: u64,
    key: u64,
) -> usize
    ensures { lent_paper out.new result
        ≡ typed (lent_paper out.old at)
        (search_line (countedLooks (finds (unsized names.now cells.now head.now) hash key))) }
{
    match find(names, cells, head, hash, key) {
        Err(_) => tell(out, at, b"no ", 1),
        Ok(found) => tell_search(out, at, found),
    }
}

// Does what a command asks, and writes its answer.
#[tactic(auto, unfolding(script_rules::specs::Answers::carried_out))]
pub(crate) fn obey(
    command: Command,
    names: &mut [u64],
    cells: &mut [u32],
    head: &mut [u32],
    sizes: &mut [u32],
    lines: &mut [u64],
    out: &mut [u8],
    at: usize,
) -> usize
    ensures { lent_turn names.new cells.new head.new sizes.new lines.new
        out.new result
        ≡ performed (lent names.old cells.old head.old sizes.old lines.old)
        (lent_paper out.old at) (command_of command) }
{
    match command {
        Command::Insert(hash, key, place) => {
            let done = insert(names, cells, head, sizes, lines, hash, key, place);
            tell_answer(out, at, b"slot ", done.answer())
        }
        Command::Remove(hash, key) => {
            let done = remove(names, cells, head, sizes, lines, hash, key);
            tell_answer(out, at, b"gone ", done.answer())
        }
        Command::Find(hash, key) => tell_find(out, at, names, cells, head, hash, key),
        Command::Rollback(to) => {
            let done = rollback(names, cells, head, sizes, lines, to);
            tell_answer(out, at, b"back ", done.answer())
        }
        Command::Mark => tell_mark(out, at, names, cells, head, sizes, lines),
        Command::List => tell_list(out, at, names, cells, head, sizes),
        Command::Bad => put_word(out, at, b"bad\n"),
    }
}
