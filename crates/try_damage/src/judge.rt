// A second judge of a tree of 64 slots, written from T1 to T8 and from nothing of the library but its reads of a word.
// It marks what it reaches, looks at every slot for every question, and climbs by parent links.
ghost use Rattle.std.specs.Prelude.{◌≤◌};

use crate::build::{SLOTS, count};
use slots::{
    BLACK, FREE, HASH, KEY, LEFT, NEXT, NULL, PARENT, PLACE, PREV, RED, RIGHT, STATE, get, name,
    put, put_word,
};

// The words of the header, by their place.
// Form kept: numbers, since the words of a header, as those of a slot, are read by their place.
const ROOT: u32 = 0;

const FIRST: u32 = 1;

const COUNT: u32 = 2;

// Word k of some words.
fn word(words: &[u32], k: u32) -> u32 {
    get(words, 0, k)
}

// T1: a link is null or names one of so many slots.
fn link_fine(link: u32, slots: u32) -> bool {
    link == NULL || link < slots
}

// T1: the five links of slot i. Of no slots, they are null.
fn links_fine(cells: &[u32], i: u32, slots: u32) -> bool {
    (PARENT..=NEXT).all(|f| link_fine(get(cells, i, f), slots))
}

// T1: the name and the place of slot i are zero.
fn blank(names: &[u64], cells: &[u32], i: u32) -> bool {
    name(names, i, HASH) == 0 && name(names, i, KEY) == 0 && get(cells, i, PLACE) == 0
}

// T1 of slot i: it is free and cleared, or black or red.
fn slot_fine(names: &[u64], cells: &[u32], i: u32) -> bool {
    match get(cells, i, STATE) {
        FREE => blank(names, cells, i) && links_fine(cells, i, 0),
        BLACK | RED => links_fine(cells, i, SLOTS),
        _ => false,
    }
}

// Whether slot i is not free.
fn used(cells: &[u32], i: u32) -> bool {
    get(cells, i, STATE) != FREE
}

// T1 of the header.
fn head_fine(cells: &[u32], head: &[u32]) -> bool {
    link_fine(word(head, ROOT), SLOTS)
        && link_fine(word(head, FIRST), SLOTS)
        && word(head, COUNT) == count(|i| used(cells, i))
}

// T2: root and first are null if the count is 0, and neither is null if it is not.
fn ends_agree(head: &[u32]) -> bool {
    let root = word(head, ROOT);
    let first = word(head, FIRST);
    if word(head, COUNT) == 0 {
        return root == NULL && first == NULL;
    }
    root != NULL && first != NULL
}

// Whether slot i is marked.
fn is_marked(marks: &[bool], i: u32) -> bool {
    marks.get(i as usize) == Some(&true)
}

// Marks the children of each marked slot.
fn spread(cells: &[u32], marks: &mut [bool]) {
    for i in 0..SLOTS {
        if is_marked(marks, i) {
            put_word(marks, get(cells, i, LEFT) as usize, true);
            put_word(marks, get(cells, i, RIGHT) as usize, true);
        }
    }
}

// The slots reached from the root, each marked: a round marks what is one step further, and no slot is 64 steps away.
fn reached(cells: &[u32], root: u32) -> [bool; 64] {
    let mut marks = [false; 64];
    put_word(&mut marks, root as usize, true);
    for _ in 0..SLOTS {
        spread(cells, &mut marks);
    }
    marks
}

// How many reached slots have slot i as their child at field f.
fn times_child(cells: &[u32], marks: &[bool], i: u32, f: u32) -> u32
    ensures { result ≤ 64 }
{
    count(|j| is_marked(marks, j) && get(cells, j, f) == i)
}

// How often slot i is named, as the root and as a child of a reached slot.
fn times_named(cells: &[u32], root: u32, marks: &[bool], i: u32) -> u32 {
    let as_child = times_child(cells, marks, i, LEFT) + times_child(cells, marks, i, RIGHT);
    as_child + u32::from(root == i)
}

// T3: the child of slot i at field f, if any, has i as its parent.
fn child_points_back(cells: &[u32], i: u32, f: u32) -> bool {
    let child = get(cells, i, f);
    child == NULL || get(cells, child, PARENT) == i
}

// T3 of slot i: it is reached if and only if it is used, then once, and its children point back.
fn is_reached(cells: &[u32], root: u32, marks: &[bool], i: u32) -> bool {
    let occupied = used(cells, i);
    is_marked(marks, i) == occupied
        && times_named(cells, root, marks, i) == u32::from(occupied)
        && child_points_back(cells, i, LEFT)
        && child_points_back(cells, i, RIGHT)
}

// The pair of slot i is less than that of slot j.
fn less(names: &[u64], i: u32, j: u32) -> bool {
    let own = (name(names, i, HASH), name(names, i, KEY));
    own < (name(names, j, HASH), name(names, j, KEY))
}

// T4: slot i, which stands at or below slot child, is on the right side of slot above, whose child that is.
fn sided(names: &[u64], cells: &[u32], i: u32, child: u32, above: u32) -> bool {
    if get(cells, above, LEFT) == child {
        return less(names, i, above);
    }
    less(names, above, i)
}

// T4 of slot i: it is less than each slot that it is below on the left, and greater than each that it is below on the right.
fn ordered(names: &[u64], cells: &[u32], i: u32) -> bool {
    let mut at = i;
    for _ in 0..SLOTS {
        let above = get(cells, at, PARENT);
        if above == NULL {
            return true;
        }
        if !sided(names, cells, i, at, above) {
            return false;
        }
        at = above;
    }
    false
}

// Whether slot i is red; null is not.
fn is_red(cells: &[u32], i: u32) -> bool {
    i != NULL && get(cells, i, STATE) == RED
}

// T5 of slot i: it is not red, or neither child is.
fn calm(cells: &[u32], i: u32) -> bool {
    !is_red(cells, i)
        || (!is_red(cells, get(cells, i, LEFT)) && !is_red(cells, get(cells, i, RIGHT)))
}

// How many black slots there are from slot i up to the root, both counted.
fn blacks(cells: &[u32], i: u32) -> u32 {
    let mut count: u32 = 0;
    let mut at = i;
    for _ in 0..SLOTS {
        if at == NULL {
            return count;
        }
        count = count.wrapping_add(u32::from(get(cells, at, STATE) == BLACK));
        at = get(cells, at, PARENT);
    }
    count
}

// Whether a way from the root ends at a null link of slot i.
fn is_end(cells: &[u32], i: u32) -> bool {
    used(cells, i) && (get(cells, i, LEFT) == NULL || get(cells, i, RIGHT) == NULL)
}

// T6: every way from the root to a null link has as many black slots as the first that is looked at.
fn level(cells: &[u32]) -> bool {
    let mut height = None;
    for i in 0..SLOTS {
        if is_end(cells, i) {
            let own = blacks(cells, i);
            if height.is_some_and(|first| first != own) {
                return false;
            }
            height = Some(own);
        }
    }
    true
}

// How often each slot is visited from first by next. One step more than there are slots counts some slot twice if the chain
// does not end; past its end there is no word to count in.
fn visits(cells: &[u32], first: u32) -> [u32; 64] {
    let mut counts = [0u32; 64];
    let mut at = first;
    for _ in 0..=SLOTS {
        let more = word(&counts, at).wrapping_add(1);
        put(&mut counts, 0, at, more);
        at = get(cells, at, NEXT);
    }
    counts
}

// T7 of slot i: it is visited once if it is used and never if it is free, and the slot after it, if any, points back.
fn is_chained(cells: &[u32], counts: &[u32], i: u32) -> bool {
    let next = get(cells, i, NEXT);
    word(counts, i) == u32::from(used(cells, i)) && (next == NULL || get(cells, next, PREV) == i)
}

// Whether slot i is on the way from slot j up to the root, both counted.
fn is_above(cells: &[u32], i: u32, j: u32) -> bool {
    let mut at = j;
    for _ in 0..SLOTS {
        if at == i || at == NULL {
            return at == i;
        }
        at = get(cells, at, PARENT);
    }
    false
}

// T8 of slot i: it has the number of used slots at it and below it.
fn is_counted(cells: &[u32], sizes: &[u32], i: u32) -> bool {
    word(sizes, i) == count(|j| used(cells, j) && is_above(cells, i, j))
}

// T1 and T2.
fn words_fine(names: &[u64], cells: &[u32], head: &[u32]) -> bool {
    (0..SLOTS).all(|i| slot_fine(names, cells, i)) && head_fine(cells, head) && ends_agree(head)
}

// T3.
fn is_tree(cells: &[u32], root: u32) -> bool {
    let marks = reached(cells, root);
    root == NULL
        || (get(cells, root, PARENT) == NULL
            && (0..SLOTS).all(|i| is_reached(cells, root, &marks, i)))
}

// T4 to T6, of a tree.
fn is_balanced(names: &[u64], cells: &[u32], root: u32) -> bool {
    !is_red(cells, root)
        && (0..SLOTS).all(|i| ordered(names, cells, i))
        && (0..SLOTS).all(|i| calm(cells, i))
        && level(cells)
}

// T7.
fn is_chain(cells: &[u32], first: u32) -> bool {
    let counts = visits(cells, first);
    first == NULL
        || (get(cells, first, PREV) == NULL && (0..SLOTS).all(|i| is_chained(cells, &counts, i)))
}

// Whether the tree is sound. Each rule is asked only where those before it hold: T4 to T6 speak of every used slot, which by
// T3 is every reached slot.
pub fn judge(names: &[u64], cells: &[u32], head: &[u32], sizes: &[u32]) -> bool {
    words_fine(names, cells, head)
        && is_tree(cells, word(head, ROOT))
        && is_balanced(names, cells, word(head, ROOT))
        && is_chain(cells, word(head, FIRST))
        && (0..SLOTS).all(|i| is_counted(cells, sizes, i))
}
