// What two trees hold, compared.
use crate::words::Words;
use index::find::find;
use slots::{FREE, HASH, KEY, NEXT, NULL, PLACE, STATE, get, name};
use tree::find::Found;

// Whether slot i is free, or its pair has the same place in the other tree.
fn is_held(x: &Words, i: u32, other: &Words) -> bool {
    if get(&x.cells, i, STATE) == FREE {
        return true;
    }
    let hash = name(&x.names, i, HASH);
    let key = name(&x.names, i, KEY);
    match find(
        other.lent_names(),
        other.lent_cells(),
        &other.head,
        hash,
        key,
    ) {
        Ok(Found::At(slot, _)) => get(&other.cells, slot, PLACE) == get(&x.cells, i, PLACE),
        _ => false,
    }
}

// Whether two sound trees of as many slots have the same entries: the other has each entry of the one, and their counts are the same.
pub fn same_entries(x: &Words, other: &Words) -> bool {
    (0..x.slots).all(|i| is_held(x, i, other)) && get(&x.head, 0, 2) == get(&other.head, 0, 2)
}

// Whether slot i has the pair and the place that slot j of the other tree has.
fn same_entry(x: &Words, i: u32, other: &Words, j: u32) -> bool {
    name(&x.names, i, HASH) == name(&other.names, j, HASH)
        && name(&x.names, i, KEY) == name(&other.names, j, KEY)
        && get(&x.cells, i, PLACE) == get(&other.cells, j, PLACE)
}

// Whether two sound trees of as many slots have the same listing: the same entries in the same order, from first by next.
pub fn same_listing(x: &Words, other: &Words) -> bool {
    let mut i = get(&x.head, 0, 1);
    let mut j = get(&other.head, 0, 1);
    for _ in 0..x.slots {
        if i == NULL || j == NULL {
            return i == j;
        }
        if !same_entry(x, i, other, j) {
            return false;
        }
        i = get(&x.cells, i, NEXT);
        j = get(&other.cells, j, NEXT);
    }
    i == j
}
