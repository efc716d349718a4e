// The chain of a tree, changed behind the journal's back.
use slots::{NEXT, NULL, PREV, get, put};

// What an exchange of two neighbours came to: whether it left a sound tree, and whether it was seen.
#[derive(Clone, Copy, Default)]
pub struct Order {
    pub planted: bool,
    pub seen: bool,
}

// Slot y is the first of the chain where the slot before it is null.
fn lead(head: &mut [u32], x: u32, y: u32) {
    if x == NULL {
        put(head, 0, 1, y);
    }
}

// Slot y comes right behind slot x in the chain, first where x is null.
fn link(cells: &mut [u32], head: &mut [u32], x: u32, y: u32) {
    lead(head, x, y);
    put(cells, x, NEXT, y);
    put(cells, y, PREV, x);
}

// Slot x and the slot behind it change places in the chain; nothing where none is behind it.
pub fn exchange(cells: &mut [u32], head: &mut [u32], x: u32) {
    let y = get(cells, x, NEXT);
    if y == NULL {
        return;
    }
    let before = get(cells, x, PREV);
    let behind = get(cells, y, NEXT);
    link(cells, head, before, y);
    link(cells, head, y, x);
    link(cells, head, x, behind);
}

// A slot that has one behind it in the chain: this one, else the first, if there are two.
pub fn before_another(cells: &[u32], head: &[u32], x: u32) -> Option<u32> {
    let first = get(head, 0, 1);
    [x, first]
        .into_iter()
        .find(|slot| get(cells, *slot, NEXT) != NULL)
}
