// Why a tree is not sound: the first broken rule, and the lowest slot that shows it. Of the library it has the reads of a word alone.
use crate::rows::{below, is_used};
use crate::tests::{
    ends_agree, head_fine, is_chain, is_tree, rises, shows1, shows3, shows5, shows7, shows8,
};
use crate::ways::{is_even, parts, way_by};
use slots::{FIRST, NULL, ROOT, word};

// The number told, and the eight words of shown, of a rule that a slot shows, or the header.
// Form kept: nine words, and a rule by its number, as section 13 of the rules has them; 99, no rule's number, counts as a difference.
fn tells(rule: u32, slot: u32) -> [u32; 9] {
    [rule, slot, NULL, NULL, NULL, NULL, NULL, NULL, NULL]
}

// T3, T5, T6 and T7 at slot i, which is used.
fn shows_used(rule: u32, cells: &[u32], head: &[u32], i: u32) -> bool {
    let root = word(head, ROOT, NULL);
    match rule {
        3 => shows3(cells, root, i),
        5 => shows5(cells, root, i),
        6 => parts(cells, i),
        _ => shows7(cells, word(head, FIRST, NULL), i),
    }
}

// A rule is broken at slot i.
fn shows(
    rule: u32,
    names: &[u64],
    cells: &[u32],
    head: &[u32],
    sizes: &[u32],
    n: u32,
    i: u32,
) -> bool {
    match rule {
        1 => shows1(names, cells, n, i),
        8 => shows8(cells, sizes, i),
        _ => is_used(cells, i) && shows_used(rule, cells, head, i),
    }
}

// The lowest slot that shows a rule, none where no slot does.
fn lowest(
    rule: u32,
    names: &[u64],
    cells: &[u32],
    head: &[u32],
    sizes: &[u32],
    n: u32,
) -> Option<u32> {
    for i in 0..n {
        if shows(rule, names, cells, head, sizes, n, i) {
            return Some(i);
        }
    }
    None
}

// A rule of T3, T6 and T7 holds, by the words of section 2.
fn holds(rule: u32, cells: &[u32], head: &[u32], n: u32) -> bool {
    let root = word(head, ROOT, NULL);
    match rule {
        3 => is_tree(cells, n, root),
        6 => is_even(cells, root),
        _ => is_chain(cells, n, word(head, FIRST, NULL)),
    }
}

// T5 and T8 hold where no slot shows them broken; the others are asked whole, and where that is not what the slots show, no rule's number
// is told.
fn told_by(rule: u32, cells: &[u32], head: &[u32], n: u32, shown: Option<u32>) -> Option<[u32; 9]> {
    let whole = rule == 3 || rule == 6 || rule == 7;
    if whole && shown.is_some() == holds(rule, cells, head, n) {
        return Some(tells(99, NULL));
    }
    Some(tells(rule, shown?))
}

// T1 is shown by a slot, or else by the header.
fn first_rule(
    names: &[u64],
    cells: &[u32],
    head: &[u32],
    sizes: &[u32],
    n: u32,
) -> Option<[u32; 9]> {
    match lowest(1, names, cells, head, sizes, n) {
        Some(i) => Some(tells(1, i)),
        None if head_fine(cells, head, n) => None,
        None => Some(tells(1, NULL)),
    }
}

// T2 is shown by the header.
fn second_rule(head: &[u32]) -> Option<[u32; 9]> {
    if ends_agree(head) {
        return None;
    }
    Some(tells(2, NULL))
}

// Two neighbours in order.
#[derive(Clone, Copy)]
struct Two {
    slot: u32,
    other: u32,
}

// The lower of two slots in order whose pairs do not rise and of those found so far.
fn lower(names: &[u64], found: Option<Two>, slot: u32, other: u32) -> Option<Two> {
    match found {
        Some(two) if two.slot <= slot => found,
        _ if rises(names, slot, other) => found,
        _ => Some(Two { slot, other }),
    }
}

// The lowest slot of a row whose pair is not below that of the next, and that next.
fn lowest_fall(names: &[u64], row: &[u32]) -> Option<Two> {
    let mut found = None;
    for (slot, other) in row.iter().zip(row.iter().skip(1)) {
        found = lower(names, found, *slot, *other);
    }
    found
}

// T4 has two slots.
fn fourth_rule(names: &[u64], cells: &[u32], head: &[u32]) -> Option<[u32; 9]> {
    let row = below(cells, word(head, ROOT, NULL));
    let Two { slot, other } = lowest_fall(names, row.slots())?;
    Some([4, slot, other, NULL, NULL, NULL, NULL, NULL, NULL])
}

// T6 has two ways.
fn with_ways(told: [u32; 9], cells: &[u32], head: &[u32]) -> [u32; 9] {
    if told[0] != 6 {
        return told;
    }
    let root = word(head, ROOT, NULL);
    let one = way_by(cells, root, told[1], 0);
    let two = way_by(cells, root, told[1], 1);
    [
        6, told[1], NULL, one[0], one[1], one[2], two[0], two[1], two[2],
    ]
}

// What is told of one rule where it is broken: its number and what shows it.
fn asked(
    rule: u32,
    names: &[u64],
    cells: &[u32],
    head: &[u32],
    sizes: &[u32],
    n: u32,
) -> Option<[u32; 9]> {
    match rule {
        1 => first_rule(names, cells, head, sizes, n),
        2 => second_rule(head),
        4 => fourth_rule(names, cells, head),
        _ => {
            let shown = lowest(rule, names, cells, head, sizes, n);
            let told = told_by(rule, cells, head, n, shown)?;
            Some(with_ways(told, cells, head))
        }
    }
}

// The number told and the eight words of shown, of a tree of n slots.
pub fn found(names: &[u64], cells: &[u32], head: &[u32], sizes: &[u32], n: u32) -> [u32; 9] {
    for rule in 1..9 {
        if let Some(told) = asked(rule, names, cells, head, sizes, n) {
            return told;
        }
    }
    tells(0, NULL)
}
