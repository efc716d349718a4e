// What is to be refused: a second tree that is not cleared or of another capacity, and a report with fewer words than slots. A refused call
// writes nothing.
use crate::ask::MOST;
use crate::counts::{DIFFERENCES, REFUSED, TRIED, count};
use crate::judge::REST;
use crate::words::{VALUES, name_values, values};
use index::fresh::fresh;
use index::insert::insert;
use night::salvage::salvage;
use slots::{NULL, put_word, word};

// The lines of a second tree with a damaged word, with a name, of another capacity, and of a report that is too short.
// Form kept: numbers, since a line is a place in the table of counts, and those of the words are found from the numbers of the fields.
const UNCLEARED: u32 = 14;

const NAMED: u32 = 15;

const CAPACITY: u32 = 16;

const SHORT: u32 = 17;

// Writes words over as many others.
// Form kept: try_why has these lines too; a public routine would owe a contract and a claim longer than it is.
pub fn copy<T: Copy>(from: &[T], to: &mut [T]) {
    for (to, from) in to.iter_mut().zip(from) {
        *to = *from;
    }
}

// Salvage answers 1 and leaves every word as it was.
fn is_refused(
    names: &[u64],
    cells: &[u32],
    names2: &mut [u64],
    cells2: &mut [u32],
    head2: &mut [u32],
    sizes2: &mut [u32],
    report: &mut [u32],
) -> bool {
    let mut oldnames = [0u64; 16];
    let mut oldcells = [0u32; 56];
    let mut oldhead = [0u32; 3];
    let mut oldsizes = [0u32; 8];
    let mut oldreport = [0u32; 10];
    copy(names2, &mut oldnames);
    copy(cells2, &mut oldcells);
    copy(head2, &mut oldhead);
    copy(sizes2, &mut oldsizes);
    copy(report, &mut oldreport);
    let made = salvage(names, cells, names2, cells2, head2, sizes2, report);
    made.is_err()
        && oldnames.starts_with(names2)
        && oldcells.starts_with(cells2)
        && oldhead.starts_with(head2)
        && oldsizes.starts_with(sizes2)
        && oldreport.starts_with(report)
}

// Counts a call that is to be refused.
fn note(counts: &mut [u32], line: u32, refused: bool) {
    count(counts, line, TRIED, 1);
    if refused {
        count(counts, line, REFUSED, 1);
    } else {
        count(counts, line, DIFFERENCES, 1);
    }
}

// Sets word k to the value of that number: whether it is another then.
fn damage_word(words: &mut [u32], k: usize, m: u32, value: usize) -> bool {
    let old = word(words, k, NULL);
    let new = word(&values(old, m), value, old);
    put_word(words, k, new);
    new != old
}

// The same of names.
fn damage_name(names: &mut [u64], k: usize, m: u32, value: usize) -> bool {
    let old = word(names, k, 0);
    let new = word(&name_values(old, m), value, old);
    put_word(names, k, new);
    new != old
}

// The same of word k of a tree of m slots: its names, its cells, its header, its sizes.
fn damage_tree(
    names: &mut [u64],
    cells: &mut [u32],
    head: &mut [u32],
    sizes: &mut [u32],
    k: usize,
    m: u32,
    value: usize,
) -> bool {
    let slots = m as usize;
    if k < 2 * slots {
        return damage_name(names, k, m, value);
    }
    let of_cells = k - 2 * slots;
    if of_cells < 7 * slots {
        return damage_word(cells, of_cells, m, value);
    }
    let of_head = of_cells - 7 * slots;
    if of_head < 3 {
        return damage_word(head, of_head, m, value);
    }
    damage_word(sizes, of_head - 3, m, value)
}

// Salvages into words that become a cleared tree and are then changed, and counts whether that is refused. The change answers whether the
// words are then to be refused.
fn try_into<Change: Fn(&mut [u64], &mut [u32], &mut [u32], &mut [u32], &mut [u64]) -> bool>(
    counts: &mut [u32],
    line: u32,
    names: &[u64],
    cells: &[u32],
    names2: &mut [u64],
    cells2: &mut [u32],
    head2: &mut [u32],
    sizes2: &mut [u32],
    report: &mut [u32],
    change: Change,
)
    requires { Change.IsAlwaysCallable change }
{
    let mut lines = [0u64; 7];
    let _ = fresh(names2, cells2, head2, sizes2, &mut lines);
    if change(names2, cells2, head2, sizes2, &mut lines) {
        let refused = is_refused(names, cells, names2, cells2, head2, sizes2, report);
        note(counts, line, refused);
    }
}

// The same of a second tree of m slots and a report of so many words.
fn try_second<Change: Fn(&mut [u64], &mut [u32], &mut [u32], &mut [u32], &mut [u64]) -> bool>(
    counts: &mut [u32],
    line: u32,
    names: &[u64],
    cells: &[u32],
    m: u32,
    len: usize,
    change: Change,
)
    requires { Change.IsAlwaysCallable change }
{
    if MOST < m || 10 < len {
        return;
    }
    let slots = m as usize;
    let mut names2 = [0u64; 16];
    let mut cells2 = [0u32; 56];
    let mut head2 = [0u32; 3];
    let mut sizes2 = [0u32; 8];
    let mut report = [REST; 10];
    try_into(
        counts,
        line,
        names,
        cells,
        &mut names2[0..2 * slots],
        &mut cells2[0..7 * slots],
        &mut head2,
        &mut sizes2[0..slots],
        &mut report[0..len],
        change,
    );
}

// Each word of the second tree with each other value. A word that is to be damaged can have the value already.
fn try_uncleared(counts: &mut [u32], names: &[u64], cells: &[u32], n: u32) {
    for k in 0..10 * n as usize + 3 {
        for value in 0..VALUES {
            try_second(
                counts,
                UNCLEARED,
                names,
                cells,
                n,
                10,
                |names, cells, head, sizes, _| damage_tree(names, cells, head, sizes, k, n, value),
            );
        }
    }
}

// A second tree with one name.
fn try_named(counts: &mut [u32], names: &[u64], cells: &[u32], n: u32) {
    try_second(
        counts,
        NAMED,
        names,
        cells,
        n,
        10,
        |names, cells, head, sizes, lines| {
            let _ = insert(names, cells, head, sizes, lines, 4, 5, 6);
            true
        },
    );
}

// A second tree of m slots, unless there are n.
fn try_capacity(counts: &mut [u32], names: &[u64], cells: &[u32], n: u32, m: u32) {
    if m != n {
        try_second(counts, CAPACITY, names, cells, m, 10, |_, _, _, _, _| true);
    }
}

// Second trees of fewer and of more slots.
fn try_capacities(counts: &mut [u32], names: &[u64], cells: &[u32], n: u32) {
    for m in 1..=MOST {
        try_capacity(counts, names, cells, n, m);
    }
}

// Reports of fewer words than slots.
fn try_reports(counts: &mut [u32], names: &[u64], cells: &[u32], n: u32) {
    for len in 0..n {
        try_second(
            counts,
            SHORT,
            names,
            cells,
            n,
            len as usize,
            |_, _, _, _, _| true,
        );
    }
}

// All that is to be refused, of a tree of n slots.
pub fn try_refusals(counts: &mut [u32], names: &[u64], cells: &[u32], n: u32) {
    try_uncleared(counts, names, cells, n);
    try_named(counts, names, cells, n);
    try_capacities(counts, names, cells, n);
    try_reports(counts, names, cells, n);
}
