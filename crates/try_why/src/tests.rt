// The rules as section 2 has them, and what shows each broken at a slot as section 13 has it.
use crate::rows::{below, chain, each_once, is_marked, is_used, leading, same, sum};
use slots::{
    COUNT, FIRST, FREE, HASH, KEY, LEFT, NEXT, NULL, PARENT, PLACE, PREV, RED, RIGHT, ROOT, STATE,
    get, name, word,
};

// A link is null or names one of n slots.
fn link_fine(link: u32, n: u32) -> bool {
    link == NULL || link < n
}

// The five links of slot i. Of no slots, they are null.
fn links_fine(cells: &[u32], i: u32, n: u32) -> bool {
    for f in PARENT..=NEXT {
        if !link_fine(get(cells, i, f), n) {
            return false;
        }
    }
    true
}

// Slot i is all zero with null links.
fn is_blank(names: &[u64], cells: &[u32], i: u32) -> bool {
    name(names, i, HASH) == 0
        && name(names, i, KEY) == 0
        && get(cells, i, PLACE) == 0
        && links_fine(cells, i, 0)
}

// T1 at slot i.
pub fn shows1(names: &[u64], cells: &[u32], n: u32, i: u32) -> bool {
    let state = get(cells, i, STATE);
    if state == FREE {
        return !is_blank(names, cells, i);
    }
    state > RED || !links_fine(cells, i, n)
}

// How many of n slots are used.
fn used_slots(cells: &[u32], n: u32) -> u32 {
    let mut count: u32 = 0;
    for i in 0..n {
        count = sum(count, is_used(cells, i) as u32);
    }
    count
}

// T1 of the header.
pub fn head_fine(cells: &[u32], head: &[u32], n: u32) -> bool {
    link_fine(word(head, ROOT, NULL), n)
        && link_fine(word(head, FIRST, NULL), n)
        && word(head, COUNT, NULL) == used_slots(cells, n)
}

// T2.
pub fn ends_agree(head: &[u32]) -> bool {
    let root = word(head, ROOT, NULL);
    let first = word(head, FIRST, NULL);
    if word(head, COUNT, NULL) == 0 {
        return root == NULL && first == NULL;
    }
    root != NULL && first != NULL
}

// The neighbour of slot i along the field f, if any, has i at the field g.
fn points_back(cells: &[u32], i: u32, f: u32, g: u32) -> bool {
    let neighbour = get(cells, i, f);
    neighbour == NULL || get(cells, neighbour, g) == i
}

// The children of slot i point back.
fn has_children(cells: &[u32], i: u32) -> bool {
    points_back(cells, i, LEFT, PARENT) && points_back(cells, i, RIGHT, PARENT)
}

// The children of each slot of a row point back.
fn all_point_back(cells: &[u32], row: &[u32]) -> bool {
    for slot in row {
        if !has_children(cells, *slot) {
            return false;
        }
    }
    true
}

// T3: the root's parent is null, each child points back, and the slots reached from the root are the used ones, each once.
pub fn is_tree(cells: &[u32], n: u32, root: u32) -> bool {
    let row = below(cells, root);
    let slots = row.slots();
    get(cells, root, PARENT) == NULL && each_once(cells, n, slots) && all_point_back(cells, slots)
}

// How many of the two children of slot p are slot i.
fn times_child(cells: &[u32], p: u32, i: u32) -> u32 {
    sum(same(get(cells, p, LEFT), i), same(get(cells, p, RIGHT), i))
}

// Slot i is the root and has no parent, or is exactly one of the two children of its parent.
fn is_placed(cells: &[u32], root: u32, i: u32) -> bool {
    let parent = get(cells, i, PARENT);
    if i == root {
        return parent == NULL;
    }
    parent != NULL && times_child(cells, parent, i) == 1
}

// Slot i has the same child twice.
fn has_twins(cells: &[u32], i: u32) -> bool {
    let left = get(cells, i, LEFT);
    left != NULL && left == get(cells, i, RIGHT)
}

// From slot i the field f leads to slot x.
fn leads(cells: &[u32], f: u32, x: u32, i: u32) -> bool {
    is_marked(&leading(cells, f, x), i)
}

// T3 at slot i, which is used.
pub fn shows3(cells: &[u32], root: u32, i: u32) -> bool {
    !is_placed(cells, root, i)
        || !has_children(cells, i)
        || has_twins(cells, i)
        || !leads(cells, PARENT, root, i)
}

// The pair of slot i is below that of slot j.
pub fn rises(names: &[u64], i: u32, j: u32) -> bool {
    let own = name(names, i, HASH);
    let other = name(names, j, HASH);
    own < other || (own == other && name(names, i, KEY) < name(names, j, KEY))
}

// Whether slot i is red; null is not.
fn is_red(cells: &[u32], i: u32) -> bool {
    i != NULL && get(cells, i, STATE) == RED
}

// T5 at slot i, which is used.
pub fn shows5(cells: &[u32], root: u32, i: u32) -> bool {
    is_red(cells, i)
        && (i == root || is_red(cells, get(cells, i, LEFT)) || is_red(cells, get(cells, i, RIGHT)))
}

// The prev of each slot of a row is the one before it, null at the first.
fn is_reverse(cells: &[u32], row: &[u32]) -> bool {
    let mut before = NULL;
    for slot in row {
        if get(cells, *slot, PREV) != before {
            return false;
        }
        before = *slot;
    }
    true
}

// T7: from first, next visits each used slot once, prev is its reverse, null at first.
pub fn is_chain(cells: &[u32], n: u32, first: u32) -> bool {
    let row = chain(cells, first);
    let slots = row.slots();
    each_once(cells, n, slots) && is_reverse(cells, slots)
}

// T7 at slot i, which is used.
pub fn shows7(cells: &[u32], first: u32, i: u32) -> bool {
    (i == first && get(cells, i, PREV) != NULL)
        || !points_back(cells, i, PREV, NEXT)
        || !points_back(cells, i, NEXT, PREV)
        || !leads(cells, PREV, first, i)
}

// T8 at slot i: its number is that of the slots in its row.
pub fn shows8(cells: &[u32], sizes: &[u32], i: u32) -> bool {
    let size = word(sizes, i as usize, 0);
    if !is_used(cells, i) {
        return size != 0;
    }
    let row = below(cells, i);
    size != row.len
}
