// The words of a tree held against those of the list, or taken from it. The list writes null as the number of slots. All that a line has
// is read, also past a word that differs.
use crate::list::List;
use slots::{HASH, KEY, NULL, PLACE, get, name, put, put_name};

// A link of the list.
pub fn link(list: &mut List<'_>, slots: u32) -> u32 {
    let value = list.number();
    if value == slots { NULL } else { value }
}

// A field of a slot: the place or the state as it stands, the five others as links.
fn field(list: &mut List<'_>, f: u32, slots: u32) -> u32 {
    if f < 2 {
        list.number()
    } else {
        link(list, slots)
    }
}

// Whether a slot's words are those of the list.
fn holds_slot(list: &mut List<'_>, names: &[u64], cells: &[u32], i: u32, slots: u32) -> bool {
    let mut same = true;
    for f in [HASH, KEY] {
        same = list.number() as u64 == name(names, i, f) && same;
    }
    for f in 0..7 {
        same = field(list, f, slots) == get(cells, i, f) && same;
    }
    same
}

// Whether every slot's are.
pub fn holds_slots(list: &mut List<'_>, names: &[u64], cells: &[u32], slots: u32) -> bool {
    let mut same = true;
    for i in 0..slots {
        same = holds_slot(list, names, cells, i, slots) && same;
    }
    same
}

// Every slot's words become those of the list.
pub fn take_slots(list: &mut List<'_>, names: &mut [u64], cells: &mut [u32], slots: u32) {
    for i in 0..slots {
        for f in [HASH, KEY] {
            put_name(names, i, f, list.number() as u64);
        }
        for f in 0..7 {
            put(cells, i, f, field(list, f, slots));
        }
    }
}
