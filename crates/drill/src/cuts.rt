// A source, cut after every call. It runs once, call by call. After every call a copy of the index is rolled back to a mark that varies
// with the cut. A second index is made by the calls alone whose lines stand below that mark: no rollback comes up in it. The two have to
// hold the same pairs and places, in the same order along the chain, and the same words of a journal. Where the source is a list, a place
// is then changed behind the journal's back, and in another copy two neighbours of the chain are exchanged; the comparison has to notice
// each. Then the index is rolled back to 0, and all of the source runs again on it.
use crate::chain::{Order, before_another};
use crate::sources::{Source, after_all, after_call, after_many};
use crate::steps::{counted, mark_of, more};
use crate::words::{
    Words, empty, exchanged, is_empty, length_of, refuses, replaced, rolled_back, same_contents,
    sound,
};
use slots::{NULL, PLACE, get, put};

// What came of the cuts: rollbacks accepted and refused at them, whole runs after them, what was not as it has to be, places planted and
// noticed, neighbours of the chain exchanged and noticed.
#[derive(Clone, Copy, Default)]
pub struct Tally {
    pub cuts: u32,
    pub rollbacks: u32,
    pub refused: u32,
    pub runs: u32,
    pub differences: u32,
    pub planted: u32,
    pub noticed: u32,
    pub exchanged: u32,
    pub seen: u32,
}

// Whether a mark past the length is refused as such.
fn refuses_past(x: &Words, cut: u32) -> bool {
    refuses(x, more(length_of(x), more(cut % 1024, 1)))
}

// Whether an index is as it was at mark m, when a second one was made to it and no further.
fn as_at_mark(x: &Words, then: &Words, m: u32) -> bool {
    same_contents(x, then) && length_of(x) == m
}

// Changes the place of the chain's first slot: whether there is one, and whether the comparison notices.
fn plant_place(x: &Words, then: &Words) -> Order {
    let first = get(&x.head, 0, 1);
    let place = more(get(&x.cells, first, PLACE), 1);
    Order {
        planted: first != NULL,
        seen: !same_contents(&replaced(x, first, place), then),
    }
}

// Exchanges two neighbours of the chain, which vary with the cut: whether the tree is sound then, and the comparison notices.
fn plant_order(x: &Words, then: &Words, cut: u32) -> Order {
    let Some(earlier) = before_another(&x.cells, &x.head, cut % 64) else {
        return Order::default();
    };
    let other = exchanged(x, earlier);
    let planted = sound(&other);
    Order {
        planted,
        seen: planted && !same_contents(&other, then),
    }
}

// What a cut came to.
#[derive(Clone, Copy)]
struct Trial {
    right: bool,
    place: Order,
    order: Order,
}

// Rolls back to 0: whether nothing is left, and all of the source runs again with every answer right.
fn again(x: &Words, source: Source, n: u32) -> bool {
    let (left, right) = rolled_back(x, 0, length_of(x));
    let (_, met) = after_all(&left, source, n);
    right && is_empty(&left) && met
}

// A cut: a mark past the length is refused, the index is rolled back to the cut's mark and held against the second one, which is made from
// an empty index; things are planted, where the source is a list; and it is rolled back to 0, and the calls are made again.
fn try_cut(x: &Words, start: &Words, made: &[u32], cut: u32, source: Source, n: u32) -> Trial {
    let count = length_of(x);
    let m = mark_of(cut, count);
    let (left, right) = rolled_back(x, m, count.wrapping_sub(m));
    let (then, _) = after_many(start, source, |line| get(made, 0, line), m);
    let same = right && as_at_mark(&left, &then, m);
    let (place, order) = match source {
        Source::Script { .. } => (Order::default(), Order::default()),
        Source::List { .. } => (plant_place(&left, &then), plant_order(&left, &then, cut)),
    };
    let runs = again(&left, source, n);
    Trial {
        right: refuses_past(x, cut) && same && runs,
        place,
        order,
    }
}

// The tally with one more cut, at which the answer was right or not.
fn tallied(t: Tally, answer: bool, tried: Trial) -> Tally {
    Tally {
        cuts: more(t.cuts, 1),
        rollbacks: more(t.rollbacks, 2),
        refused: more(t.refused, 1),
        runs: more(t.runs, 1),
        differences: counted(t.differences, !(answer && tried.right)),
        planted: counted(t.planted, tried.place.planted),
        noticed: counted(t.noticed, tried.place.seen),
        exchanged: counted(t.exchanged, tried.order.planted),
        seen: counted(t.seen, tried.order.seen),
    }
}

// The n calls of a source on an index of so many slots and lines, cut after each. A call that makes a line makes the one whose number is
// the length before it: which call made each line is kept.
pub fn cut_all(slots: u32, rows: u32, source: Source, n: u32) -> Tally {
    let start = empty(slots, rows);
    let mut made = [0u32; 1024];
    let mut x = start;
    let mut said = 0;
    let mut t = Tally::default();
    for k in 0..n {
        put(&mut made, 0, length_of(&x), k);
        let (left, met) = after_call(&x, source, k, said);
        let tried = try_cut(&left, &start, &made, t.cuts, source, n);
        t = tallied(t, met.is_ok(), tried);
        x = left;
        said = match met {
            Ok(at) | Err(at) => at,
        };
    }
    t
}
