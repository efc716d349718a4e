// An index as one value, and what is done with it by numbers alone.
use crate::chain::exchange;
use crate::entries::{same_entries, same_listing};
use crate::steps::{is_sound, length};
use index::fresh::fresh;
use index::insert::insert;
use index::rollback::{RollbackRefusal, rollback};
use slots::{PLACE, get, put};
use trials::part::first;
use trials::same::same_index;

// The words of an index of so many slots and lines, which are the first of each array.
// Form kept: the room and how much of it is used stand side by side by the rule of no heap (nothing is allocated in the programs).
#[derive(Clone, Copy)]
pub struct Words {
    pub names: [u64; 1024],
    pub cells: [u32; 3584],
    pub head: [u32; 3],
    pub sizes: [u32; 512],
    pub lines: [u64; 6145],
    pub slots: u32,
    pub rows: u32,
}

impl Words {
    pub fn lent_names(&self) -> &[u64] {
        first(&self.names, 2 * self.slots as usize)
    }

    pub fn lent_cells(&self) -> &[u32] {
        first(&self.cells, 7 * self.slots as usize)
    }
}

// The first words of a slice, to be written: as many as are asked for, or all of them where there are no more.
// Form kept: each program has its own, since of a public one no clause that the check proves by itself says what is left of the slice.
fn lend<T>(words: &mut [T], n: usize) -> &mut [T] {
    let most = n.min(words.len());
    &mut words[..most]
}

// What is left of an index after a step on its slices, and what came of the step.
pub(crate) fn after<R, F>(x: &Words, step: F) -> (Words, R)
where
    F: FnOnce(&mut [u64], &mut [u32], &mut [u32], &mut [u32], &mut [u64]) -> R,
    requires { F.IsAlwaysCallable step }
{
    let mut left = *x;
    let n = x.slots as usize;
    let came = step(
        lend(&mut left.names, 2 * n),
        lend(&mut left.cells, 7 * n),
        &mut left.head,
        lend(&mut left.sizes, n),
        lend(&mut left.lines, 6 * x.rows as usize + 1),
    );
    (left, came)
}

// An empty index.
pub fn empty(slots: u32, rows: u32) -> Words {
    let zeros = Words {
        names: [0; 1024],
        cells: [0; 3584],
        head: [0; 3],
        sizes: [0; 512],
        lines: [0; 6145],
        slots,
        rows,
    };
    let (words, _) = after(&zeros, |names, cells, head, sizes, lines| {
        fresh(names, cells, head, sizes, lines)
    });
    words
}

// After a rollback to a mark, and whether that undid so many lines.
pub fn rolled_back(x: &Words, mark: u32, count: u32) -> (Words, bool) {
    after(x, |names, cells, head, sizes, lines| {
        let undone = rollback(names, cells, head, sizes, lines, mark);
        undone.ok() == Some(count)
    })
}

// Whether a rollback to a mark, which is past the length, is refused as such, and every word is left as it was.
pub fn refuses(x: &Words, mark: u32) -> bool {
    let (left, refused) = after(x, |names, cells, head, sizes, lines| {
        matches!(
            rollback(names, cells, head, sizes, lines, mark),
            Err(RollbackRefusal::BadMark)
        )
    });
    refused && same(x, &left)
}

// After an insert of a key, with a journal of its own, and whether it went in.
pub fn with_key(x: &Words, key: u64) -> (Words, bool) {
    after(x, |names, cells, head, sizes, _| {
        let inserted = insert(
            names,
            cells,
            head,
            sizes,
            &mut [0; 7],
            key / 4,
            key,
            4000000000,
        );
        inserted.is_ok()
    })
}

// The journal's length.
pub fn length_of(x: &Words) -> u32 {
    length(&x.lines)
}

// Whether all rules of the tree hold.
pub fn sound(x: &Words) -> bool {
    let sizes = first(&x.sizes, x.slots as usize);
    is_sound(x.lent_names(), x.lent_cells(), &x.head, sizes)
}

// Slot y and the slot behind it in the chain change places.
pub fn exchanged(x: &Words, y: u32) -> Words {
    let mut words = *x;
    exchange(&mut words.cells, &mut words.head, y);
    words
}

// The place of slot y is another.
pub fn replaced(x: &Words, y: u32, place: u32) -> Words {
    let mut words = *x;
    put(&mut words.cells, y, PLACE, place);
    words
}

// Whether two have the same words.
fn same(x: &Words, y: &Words) -> bool {
    same_index(
        &x.names, &x.cells, &x.head, &x.sizes, &x.lines, &y.names, &y.cells, &y.head, &y.sizes,
        &y.lines,
    )
}

// Whether two indexes are the same: both sound, with the same pairs and places, in the same order along the chain, and with the same
// words of the journal.
pub fn same_contents(x: &Words, y: &Words) -> bool {
    sound(x) && sound(y) && same_entries(x, y) && same_listing(x, y) && x.lines == y.lines
}

// Whether nothing is left: a sound tree with no slot, and a journal with no line.
pub fn is_empty(x: &Words) -> bool {
    sound(x) && get(&x.head, 0, 2) == 0 && length_of(x) == 0
}
