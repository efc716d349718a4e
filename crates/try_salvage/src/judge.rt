// Whether what salvage has left is right: the report, the second tree's entries, their slots and their order along the chain.
use crate::naive::{is_lost, same_entry, told, told_below};
use index::sound::sound;
use night::why::why;
use slots::{COUNT, FIRST, FREE, NEXT, NULL, STATE, get, word};

// What stands in the report before the call, two words of it past the slots.
pub const REST: u32 = 77;

// The report says of each slot what is to be told.
pub fn report_right(names: &[u64], cells: &[u32], report: &[u32], n: u32) -> bool {
    for i in 0..n {
        if word(report, i as usize, NULL) != told(names, cells, i) {
            return false;
        }
    }
    true
}

// The two words past the slots are as before.
pub fn rest_stays(report: &[u32], n: u32) -> bool {
    word(report, n as usize, 0) == REST && word(report, n as usize + 1, 0) == REST
}

// The entry of each slot that is to be kept stands in the slot of the second tree whose number is that of the kept ones below it.
pub fn entries_right(names: &[u64], cells: &[u32], names2: &[u64], cells2: &[u32], n: u32) -> bool {
    for i in 0..n {
        let k = told_below(names, cells, i, 0);
        if told(names, cells, i) == 0 && !same_entry(names, cells, i, names2, cells2, k) {
            return false;
        }
    }
    true
}

// The first slots of the second tree, so many as are kept, are used, and the others free.
pub fn used_right(cells2: &[u32], kept: u32, n: u32) -> bool {
    for k in 0..n {
        if (get(cells2, k, STATE) == FREE) == (k < kept) {
            return false;
        }
    }
    true
}

// From first by next the last of the kept slots comes first, and slot 0 last.
pub fn chain_right(cells2: &[u32], head2: &[u32], kept: u32) -> bool {
    let mut at = word(head2, FIRST, NULL);
    for k in (0..kept).rev() {
        if at != k {
            return false;
        }
        at = get(cells2, at, NEXT);
    }
    at == NULL
}

// The second tree is sound by the full check, counts those kept, and no rule of it is told to be broken.
pub fn sound_right(
    names2: &[u64],
    cells2: &[u32],
    head2: &[u32],
    sizes2: &[u32],
    kept: u32,
) -> bool {
    let Ok(true) = sound(names2, cells2, head2, sizes2) else {
        return false;
    };
    let Ok(account) = why(names2, cells2, head2, sizes2) else {
        return false;
    };
    account.rule == 0 && word(head2, COUNT, NULL) == kept
}

// Slot i has the entry that it had before the damage, the report says that it is kept, and yet it is lost.
fn lost_unsaid(
    names0: &[u64],
    cells0: &[u32],
    names: &[u64],
    cells: &[u32],
    names2: &[u64],
    cells2: &[u32],
    report: &[u32],
    n: u32,
    i: u32,
) -> bool {
    word(report, i as usize, NULL) == 0
        && same_entry(names0, cells0, i, names, cells, i)
        && is_lost(names0, cells0, i, names2, cells2, n)
}

// No entry of the tree before the damage is lost but those that the report says, or whose own words were damaged.
pub fn no_more_lost(
    names0: &[u64],
    cells0: &[u32],
    names: &[u64],
    cells: &[u32],
    names2: &[u64],
    cells2: &[u32],
    report: &[u32],
    n: u32,
) -> bool {
    for i in 0..n {
        if lost_unsaid(names0, cells0, names, cells, names2, cells2, report, n, i) {
            return false;
        }
    }
    true
}
