// One line of the list: a call with its answer, or words.
use crate::list::List;
use crate::words::{holds_slots, link, take_slots};
use index::check::check;
use index::find::find;
use index::insert::insert;
use index::remove::remove;
use slots::NULL;
use slots::answer::{Answer, Answers};
use tree::find::counted_by;

// The words of a journal of one line: its length, and six.
const JOURNAL_WORDS: usize = 1 + 6;

// Whether the answer is the number and the value that come next in the list, which has a value of its own for none.
fn agrees(list: &mut List<'_>, answer: Answer, none: u32, slots: u32) -> bool {
    let number = list.number();
    let value = link(list, slots);
    number == answer.number && value == answer.value.unwrap_or(none)
}

fn try_insert(
    list: &mut List<'_>,
    names: &mut [u64],
    cells: &mut [u32],
    head: &mut [u32],
    sizes: &mut [u32],
    slots: u32,
) -> bool {
    let hash = list.number() as u64;
    let key = list.number() as u64;
    let place = list.number();
    let mut lines = [0u64; JOURNAL_WORDS];
    let inserted = insert(names, cells, head, sizes, &mut lines, hash, key, place);
    agrees(list, inserted.answer(), 0, slots)
}

fn try_remove(
    list: &mut List<'_>,
    names: &mut [u64],
    cells: &mut [u32],
    head: &mut [u32],
    sizes: &mut [u32],
    slots: u32,
) -> bool {
    let hash = list.number() as u64;
    let key = list.number() as u64;
    let mut lines = [0u64; JOURNAL_WORDS];
    let removed = remove(names, cells, head, sizes, &mut lines, hash, key);
    agrees(list, removed.answer(), 0, slots)
}

fn try_find(list: &mut List<'_>, names: &[u64], cells: &[u32], head: &[u32], slots: u32) -> bool {
    let hash = list.number() as u64;
    let key = list.number() as u64;
    let counted = counted_by(find(names, cells, head, hash, key));
    agrees(list, counted.answer, NULL, slots)
}

fn try_check(list: &mut List<'_>, names: &[u64], cells: &[u32], head: &[u32], slots: u32) -> bool {
    agrees(list, check(names, cells, head).answer(), 0, slots)
}

fn try_words(
    list: &mut List<'_>,
    names: &[u64],
    cells: &[u32],
    head: &[u32; 3],
    slots: u32,
) -> bool {
    let root = link(list, slots);
    let first = link(list, slots);
    let count = list.number();
    holds_slots(list, names, cells, slots) && *head == [root, first, count]
}

fn take_words(
    list: &mut List<'_>,
    names: &mut [u64],
    cells: &mut [u32],
    head: &mut [u32; 3],
    slots: u32,
) {
    *head = [link(list, slots), link(list, slots), list.number()];
    take_slots(list, names, cells, slots);
}

// Whether the rest of a line of this kind is as the list has it; no kind that the list does not have is.
// Form kept: the numbers are the list's own, which has lines of other kinds than calls.
pub fn line(
    list: &mut List<'_>,
    kind: u32,
    names: &mut [u64],
    cells: &mut [u32],
    head: &mut [u32; 3],
    sizes: &mut [u32],
    slots: u32,
) -> bool {
    match kind {
        1 => try_insert(list, names, cells, head, sizes, slots),
        2 => try_remove(list, names, cells, head, sizes, slots),
        3 => try_find(list, names, cells, head, slots),
        4 => try_words(list, names, cells, head, slots),
        5 => try_check(list, names, cells, head, slots),
        6 => {
            take_words(list, names, cells, head, slots);
            true
        }
        _ => false,
    }
}
