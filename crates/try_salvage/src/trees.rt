// The trees that are damaged, made by fresh, insert and remove.
use crate::ask::ask;
use crate::refuse::try_refusals;
use crate::twos::try_twos;
use crate::words::{try_cells, try_names};
use index::fresh::fresh;
use index::insert::insert;
use index::remove::remove;

// The hash of a name by its number. Two neighbours have one, and none is 0.
fn hash_of(x: u64) -> u64 {
    4 + x % 8 / 2 * 3
}

// The key of a name by its number.
fn key_of(x: u64) -> u64 {
    5 + x % 2 * 3
}

// Puts names in, by their numbers in an order.
// Form kept: try_why has put_in and take_out too; public ones would owe contracts and claims longer than they are.
// Form kept: the slices stand apart, as the library's calls take them; a struct of them would be taken apart again at each call.
fn put_in(
    names: &mut [u64],
    cells: &mut [u32],
    head: &mut [u32],
    sizes: &mut [u32],
    lines: &mut [u64],
    order: &[u64],
) {
    for (k, x) in (0..).zip(order) {
        let _ = insert(names, cells, head, sizes, lines, hash_of(*x), key_of(*x), k);
    }
}

// Takes so many of them out again, the first first.
fn take_out(
    names: &mut [u64],
    cells: &mut [u32],
    head: &mut [u32],
    sizes: &mut [u32],
    lines: &mut [u64],
    order: &[u64],
    taken: u32,
) {
    for x in order.iter().take(taken as usize) {
        let _ = remove(names, cells, head, sizes, lines, hash_of(*x), key_of(*x));
    }
}

// The words of a tree of n slots, as they are and damaged in every way; what is damaged is lent beside them and is as they are.
fn damage(
    counts: &mut [u32],
    names0: &[u64],
    cells0: &[u32],
    names: &mut [u64],
    cells: &mut [u32],
    n: u32,
) {
    ask(counts, 0, names0, cells0, names0, cells0, n);
    try_names(counts, names0, cells0, names, n);
    try_cells(counts, names0, cells0, cells, n);
    try_twos(counts, names0, cells0, names, cells, n);
    try_refusals(counts, names0, cells0, n);
}

// A tree of four slots with names in an order.
fn try_four(counts: &mut [u32], order: &[u64]) {
    let mut names = [0u64; 8];
    let mut cells = [0u32; 28];
    let mut head = [0u32; 3];
    let mut sizes = [0u32; 4];
    let mut lines = [0u64; 97];
    let _ = fresh(&mut names, &mut cells, &mut head, &mut sizes, &mut lines);
    put_in(
        &mut names, &mut cells, &mut head, &mut sizes, &mut lines, order,
    );
    let mut other_names = names;
    let mut other_cells = cells;
    damage(
        counts,
        &names,
        &cells,
        &mut other_names,
        &mut other_cells,
        4,
    );
}

// A tree of eight slots with names in an order, less so many.
fn try_eight(counts: &mut [u32], order: &[u64], taken: u32) {
    let mut names = [0u64; 16];
    let mut cells = [0u32; 56];
    let mut head = [0u32; 3];
    let mut sizes = [0u32; 8];
    let mut lines = [0u64; 97];
    let _ = fresh(&mut names, &mut cells, &mut head, &mut sizes, &mut lines);
    put_in(
        &mut names, &mut cells, &mut head, &mut sizes, &mut lines, order,
    );
    take_out(
        &mut names, &mut cells, &mut head, &mut sizes, &mut lines, order, taken,
    );
    let mut other_names = names;
    let mut other_cells = cells;
    damage(
        counts,
        &names,
        &cells,
        &mut other_names,
        &mut other_cells,
        8,
    );
}

// No name, one, two, three and four in four slots.
pub fn try_small(counts: &mut [u32]) {
    try_four(counts, &[]);
    try_four(counts, &[3]);
    try_four(counts, &[3, 5]);
    try_four(counts, &[3, 5, 1]);
    try_four(counts, &[3, 5, 1, 6]);
}

// In eight slots: five names; eight rising, falling and in another order; and six and five that are left of eight.
pub fn try_large(counts: &mut [u32]) {
    try_eight(counts, &[0, 1, 2, 3, 4], 0);
    try_eight(counts, &[0, 1, 2, 3, 4, 5, 6, 7], 0);
    try_eight(counts, &[7, 6, 5, 4, 3, 2, 1, 0], 0);
    try_eight(counts, &[3, 6, 0, 5, 2, 7, 4, 1], 0);
    try_eight(counts, &[2, 4, 6, 1, 3, 7, 5, 0], 2);
    try_eight(counts, &[5, 3, 1, 6, 7, 4, 2, 0], 3);
}
