// The rows that the finder writes out before it looks at them, and marks.
use slots::{FREE, LEFT, NEXT, NULL, RIGHT, STATE, get, put_word};

// The most slots that a tree here has; a way that goes by more slots than that goes by one of them twice.
pub const MOST: u32 = 7;

// Slots one after the other, and how many there are.
// Form kept: the room and how much of it is used stand in one value by the rule of no heap (nothing is allocated in the programs).
#[derive(Clone, Copy)]
pub struct Row {
    pub slots: [u32; 16],
    pub len: u32,
}

impl Row {
    // The slots alone.
    pub fn slots(&self) -> &[u32] {
        match self.slots.get(..self.len as usize) {
            Some(slots) => slots,
            None => &self.slots,
        }
    }
}

// The sum of two counts, which do not come near 32 bits.
pub fn sum(a: u32, b: u32) -> u32 {
    std::num::wrapping_add_u32(a, b)
}

// 1 if the two are the same, 0 if not.
pub fn same(a: u32, b: u32) -> u32 {
    (a == b) as u32
}

// Slot i is not free.
pub fn is_used(cells: &[u32], i: u32) -> bool {
    get(cells, i, STATE) != FREE
}

// Writes the slots below a link, read left, self, right, into the row from a position on: the position behind them. No further than so
// deep, and no more once there are more than slots.
fn write_below(cells: &[u32], link: u32, depth: u32, row: &mut [u32], at: u32) -> u32 {
    if depth == 0 {
        return at;
    }
    if link == NULL {
        return at;
    }
    if MOST < at {
        return at;
    }
    let left = get(cells, link, LEFT);
    let own = write_below(cells, left, depth - 1, row, at);
    put_word(row, own as usize, link);
    let right = get(cells, link, RIGHT);
    write_below(cells, right, depth - 1, row, sum(own, 1))
}

// The slots below a link, read left, self, right. On a ring there are more than the tree has.
pub fn below(cells: &[u32], link: u32) -> Row {
    let mut slots = [NULL; 16];
    let len = write_below(cells, link, 8, &mut slots, 0);
    Row { slots, len }
}

// The slots from first by next, and on a ring one more than the most.
pub fn chain(cells: &[u32], first: u32) -> Row {
    let mut slots = [NULL; 16];
    let mut at = first;
    for len in 0..=MOST {
        if at == NULL {
            return Row { slots, len };
        }
        put_word(&mut slots, len as usize, at);
        at = get(cells, at, NEXT);
    }
    Row {
        slots,
        len: MOST + 1,
    }
}

// How many times slot i stands in a row.
fn times(row: &[u32], i: u32) -> usize {
    row.iter().filter(|slot| **slot == i).count()
}

// The slots of a row are the used ones of n, each once.
pub fn each_once(cells: &[u32], n: u32, row: &[u32]) -> bool {
    for i in 0..n {
        if times(row, i) != is_used(cells, i) as usize {
            return false;
        }
    }
    true
}

// Whether slot i is marked.
pub fn is_marked(marks: &[bool], i: u32) -> bool {
    marks.get(i as usize) == Some(&true)
}

// Marks slot i if the field f names a marked slot there.
fn mark_slot(cells: &[u32], f: u32, marks: &mut [bool], i: u32) {
    let to = get(cells, i, f);
    if is_marked(marks, to) {
        put_word(marks, i as usize, true);
    }
}

// Marks each slot at which the field f names a marked one.
fn mark_slots(cells: &[u32], f: u32, marks: &mut [bool]) {
    for i in 0..MOST {
        mark_slot(cells, f, marks, i);
    }
}

// The slots from which the field f leads to slot x, each marked: a round marks what is one step further away.
pub fn leading(cells: &[u32], f: u32, x: u32) -> [bool; 7] {
    let mut marks = [false; 7];
    put_word(&mut marks, x as usize, true);
    for _ in 0..MOST {
        mark_slots(cells, f, &mut marks);
    }
    marks
}
