// One call of a batch, on an index that the check has said yes to: its answer's word is written, and the floor after it handed back.
ghost use Rattle.std.specs.Prelude.{◌≡◌, true};
ghost use Rattle.index_rules.specs.Index.{lent};
ghost use Rattle.index_rules.specs.Calls.{insert_call, remove_call, replace_call};
ghost use Rattle.index_rules.specs.Batch.{call_fits, call_at};
ghost use Rattle.index_rules.specs.Checked.{Ready};
ghost use Rattle.batch.specs.Making.{CallMade};

use crate::calls::{CALL_HASH, CALL_KEY, CALL_KIND, CALL_PLACE, call_word};
use index::insert::{insert_sound, raise};
use index::journal::{INSERT, REMOVE};
use index::present::lower;
use index::remove::remove_sound;
use index::replace::replace_sound;
use slots::answer::{Answers, answer_word};
use slots::put_word;

// Form kept: a function for each kind, since the clause of each names its call, and what they share is one line.
fn make_insert(
    names: &mut [u64],
    cells: &mut [u32],
    head: &mut [u32],
    sizes: &mut [u32],
    lines: &mut [u64],
    answers: &mut [u64],
    k: usize,
    floor: u32,
    hash: u64,
    key: u64,
    place: u32,
) -> u32
    requires { Ready (lent names.old cells.old head.old sizes.old lines.old) floor }
    ensures { CallMade (lent names.old cells.old head.old sizes.old lines.old)
        answers.old k (insert_call hash key place)
        (lent names.new cells.new head.new sizes.new lines.new)
        answers.new result }
{
    let inserted = insert_sound(names, cells, head, sizes, lines, floor, hash, key, place);
    put_word(answers, k, answer_word(inserted.answer()));
    raise(inserted, floor)
}

// Form kept: a function for each kind, since the clause of each names its call, and what they share is one line.
fn make_remove(
    names: &mut [u64],
    cells: &mut [u32],
    head: &mut [u32],
    sizes: &mut [u32],
    lines: &mut [u64],
    answers: &mut [u64],
    k: usize,
    floor: u32,
    hash: u64,
    key: u64,
) -> u32
    requires { Ready (lent names.old cells.old head.old sizes.old lines.old) floor }
    ensures { CallMade (lent names.old cells.old head.old sizes.old lines.old)
        answers.old k (remove_call hash key)
        (lent names.new cells.new head.new sizes.new lines.new)
        answers.new result }
{
    let removed = remove_sound(names, cells, head, sizes, lines, hash, key);
    put_word(answers, k, answer_word(removed.answer()));
    lower(removed, floor)
}

// Form kept: a function for each kind, since the clause of each names its call, and what they share is one line.
fn make_replace(
    names: &[u64],
    cells: &mut [u32],
    head: &[u32],
    sizes: &[u32],
    lines: &mut [u64],
    answers: &mut [u64],
    k: usize,
    floor: u32,
    hash: u64,
    key: u64,
    place: u32,
) -> u32
    requires { Ready (lent names.now cells.old head.now sizes.now lines.old) floor }
    ensures { CallMade (lent names.now cells.old head.now sizes.now lines.old)
        answers.old k (replace_call hash key place)
        (lent names.now cells.new head.now sizes.now lines.new)
        answers.new result }
{
    let replaced = replace_sound(names, cells, head, sizes, lines, hash, key, place);
    put_word(answers, k, answer_word(replaced.answer()));
    floor
}

// Call number k of the slice.
pub(crate) fn make(
    names: &mut [u64],
    cells: &mut [u32],
    head: &mut [u32],
    sizes: &mut [u32],
    lines: &mut [u64],
    calls: &[u64],
    answers: &mut [u64],
    k: usize,
    floor: u32,
) -> u32
    requires ready { Ready (lent names.old cells.old head.old sizes.old lines.old) floor }
    requires k_value { call_fits calls.now k ≡ true }
    ensures { CallMade (lent names.old cells.old head.old sizes.old lines.old)
        answers.old k (call_at calls.now k)
        (lent names.new cells.new head.new sizes.new lines.new)
        answers.new result }
{
    let kind = call_word(calls, k, CALL_KIND);
    let hash = call_word(calls, k, CALL_HASH);
    let key = call_word(calls, k, CALL_KEY);
    let place = call_word(calls, k, CALL_PLACE);
    if kind == INSERT {
        return make_insert(
            names,
            cells,
            head,
            sizes,
            lines,
            answers,
            k,
            floor,
            hash,
            key,
            place as u32,
        );
    }
    if kind == REMOVE {
        return make_remove(
            names, cells, head, sizes, lines, answers, k, floor, hash, key,
        );
    }
    make_replace(
        names,
        cells,
        head,
        sizes,
        lines,
        answers,
        k,
        floor,
        hash,
        key,
        place as u32,
    )
}
