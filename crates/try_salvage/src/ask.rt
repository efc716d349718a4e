// Salvages a damaged tree, and counts what came of it. The tree before the damage is lent too.
use crate::counts::{DIFFERENCES, KEPT, LOST, TRIED, count, one_if};
use crate::judge::{
    REST, chain_right, entries_right, no_more_lost, report_right, rest_stays, sound_right,
    used_right,
};
use crate::naive::{lost, told_below};
use index::fresh::fresh;
use night::salvage::salvage;
use slots::answer::Unfit;

// The most slots that a tree here has.
pub const MOST: u32 = 8;

// Counts what is to be told of the n slots.
fn count_told(counts: &mut [u32], line: u32, names: &[u64], cells: &[u32], n: u32) {
    for what in 0..4 {
        let slots = told_below(names, cells, n, what);
        count(counts, line, KEPT + what, slots);
    }
}

// The answer, the report and the second tree are right, so many slots being kept.
fn is_right(
    names: &[u64],
    cells: &[u32],
    names2: &[u64],
    cells2: &[u32],
    head2: &[u32],
    sizes2: &[u32],
    report: &[u32],
    n: u32,
    kept: u32,
) -> bool {
    kept == told_below(names, cells, n, 0)
        && report_right(names, cells, report, n)
        && rest_stays(report, n)
        && entries_right(names, cells, names2, cells2, n)
        && used_right(cells2, kept, n)
        && chain_right(cells2, head2, kept)
        && sound_right(names2, cells2, head2, sizes2, kept)
}

// Makes the second tree, cleared, and salvages into it: how many slots are kept.
fn save(
    names: &[u64],
    cells: &[u32],
    names2: &mut [u64],
    cells2: &mut [u32],
    head2: &mut [u32],
    sizes2: &mut [u32],
    report: &mut [u32],
) -> Result<u32, Unfit> {
    let mut lines = [0u64; 1];
    fresh(names2, cells2, head2, sizes2, &mut lines)?;
    salvage(names, cells, names2, cells2, head2, sizes2, report)
}

// Counts whether what is left is what is to be, and what is lost of the tree before the damage.
fn note(
    counts: &mut [u32],
    line: u32,
    names0: &[u64],
    cells0: &[u32],
    names: &[u64],
    cells: &[u32],
    names2: &[u64],
    cells2: &[u32],
    head2: &[u32],
    sizes2: &[u32],
    report: &[u32],
    n: u32,
    made: Result<u32, Unfit>,
) {
    let kept_right = match made {
        Ok(kept) => is_right(names, cells, names2, cells2, head2, sizes2, report, n, kept),
        Err(_) => false,
    };
    let right = kept_right && no_more_lost(names0, cells0, names, cells, names2, cells2, report, n);
    count(counts, line, DIFFERENCES, one_if(!right));
    let gone = lost(names0, cells0, names2, cells2, n);
    count(counts, line, LOST, gone);
}

// Salvages into words that become a cleared tree, and counts what came of it.
fn ask_into(
    counts: &mut [u32],
    line: u32,
    names0: &[u64],
    cells0: &[u32],
    names: &[u64],
    cells: &[u32],
    names2: &mut [u64],
    cells2: &mut [u32],
    head2: &mut [u32],
    sizes2: &mut [u32],
    report: &mut [u32],
    n: u32,
) {
    let made = save(names, cells, names2, cells2, head2, sizes2, report);
    note(
        counts, line, names0, cells0, names, cells, names2, cells2, head2, sizes2, report, n, made,
    );
}

// Salvages the names and cells of n slots, which were others before the damage. More slots are not asked, and not counted.
pub fn ask(
    counts: &mut [u32],
    line: u32,
    names0: &[u64],
    cells0: &[u32],
    names: &[u64],
    cells: &[u32],
    n: u32,
) {
    if MOST < n {
        return;
    }
    let slots = n as usize;
    let mut names2 = [0u64; 16];
    let mut cells2 = [0u32; 56];
    let mut head2 = [0u32; 3];
    let mut sizes2 = [0u32; 8];
    let mut report = [REST; 10];
    ask_into(
        counts,
        line,
        names0,
        cells0,
        names,
        cells,
        &mut names2[0..2 * slots],
        &mut cells2[0..7 * slots],
        &mut head2,
        &mut sizes2[0..slots],
        &mut report[0..slots + 2],
        n,
    );
    count(counts, line, TRIED, 1);
    count_told(counts, line, names, cells, n);
}
