// The trees that are damaged, made by fresh, insert and remove.
use crate::ask::ask;
use crate::twos::try_twos;
use crate::words::{try_names, try_words};
use index::fresh::fresh;
use index::insert::insert;
use index::remove::remove;
use slots::put_word;

// The hash of a name by its number. Two neighbours have one, and none is 0.
fn hash_of(x: u64) -> u64 {
    4 + x % 7 / 2 * 3
}

// The key of a name by its number.
fn key_of(x: u64) -> u64 {
    5 + x % 2 * 3
}

// Puts names in, by their numbers in an order.
// Form kept: try_salvage has put_in and take_out too; public ones would owe contracts and claims longer than they are.
// Form kept: the slices stand apart, as the library's calls take them; a struct of them would be taken apart again at each call.
fn put_in(
    names: &mut [u64],
    cells: &mut [u32],
    head: &mut [u32],
    sizes: &mut [u32],
    lines: &mut [u64],
    order: &[u64],
) {
    for (k, x) in (0..).zip(order) {
        let _ = insert(names, cells, head, sizes, lines, hash_of(*x), key_of(*x), k);
    }
}

// Takes so many of them out again, the first first.
fn take_out(
    names: &mut [u64],
    cells: &mut [u32],
    head: &mut [u32],
    sizes: &mut [u32],
    lines: &mut [u64],
    order: &[u64],
    taken: u32,
) {
    for x in order.iter().take(taken as usize) {
        let _ = remove(names, cells, head, sizes, lines, hash_of(*x), key_of(*x));
    }
}

// Writes words behind the first so many of others: how many there are then.
fn lay(from: &[u32], to: &mut [u32], at: usize) -> usize {
    for (k, x) in from.iter().enumerate() {
        put_word(to, std::num::wrapping_add_usize(at, k), *x);
    }
    std::num::wrapping_add_usize(at, from.len())
}

// The cells, the header and the sizes in one slice.
fn lay_all(cells: &[u32], head: &[u32], sizes: &[u32], words: &mut [u32]) {
    let end = lay(cells, words, 0);
    let sized = lay(head, words, end);
    lay(sizes, words, sized);
}

// The words of a tree of n slots, as they are and damaged in every way.
fn damage(counts: &mut [u32], names: &mut [u64], words: &mut [u32], n: u32) {
    ask(counts, 0, names, words, n);
    try_names(counts, names, words, n);
    try_words(counts, names, words, n);
    try_twos(counts, names, words, n);
}

// A tree of four slots with names in an order.
fn try_four(counts: &mut [u32], order: &[u64]) {
    let mut names = [0u64; 8];
    let mut cells = [0u32; 28];
    let mut head = [0u32; 3];
    let mut sizes = [0u32; 4];
    let mut lines = [0u64; 97];
    let mut words = [0u32; 35];
    let _ = fresh(&mut names, &mut cells, &mut head, &mut sizes, &mut lines);
    put_in(
        &mut names, &mut cells, &mut head, &mut sizes, &mut lines, order,
    );
    lay_all(&cells, &head, &sizes, &mut words);
    damage(counts, &mut names, &mut words, 4);
}

// A tree of seven slots with names in an order, less so many.
fn try_seven(counts: &mut [u32], order: &[u64], taken: u32) {
    let mut names = [0u64; 14];
    let mut cells = [0u32; 49];
    let mut head = [0u32; 3];
    let mut sizes = [0u32; 7];
    let mut lines = [0u64; 97];
    let mut words = [0u32; 59];
    let _ = fresh(&mut names, &mut cells, &mut head, &mut sizes, &mut lines);
    put_in(
        &mut names, &mut cells, &mut head, &mut sizes, &mut lines, order,
    );
    take_out(
        &mut names, &mut cells, &mut head, &mut sizes, &mut lines, order, taken,
    );
    lay_all(&cells, &head, &sizes, &mut words);
    damage(counts, &mut names, &mut words, 7);
}

// No name, one, two, three and four in four slots.
pub fn try_small(counts: &mut [u32]) {
    try_four(counts, &[]);
    try_four(counts, &[3]);
    try_four(counts, &[3, 5]);
    try_four(counts, &[3, 5, 1]);
    try_four(counts, &[3, 5, 1, 6]);
}

// In seven slots: five names; seven rising, falling and in another order; and five and four that are left of seven.
pub fn try_large(counts: &mut [u32]) {
    try_seven(counts, &[0, 1, 2, 3, 4], 0);
    try_seven(counts, &[0, 1, 2, 3, 4, 5, 6], 0);
    try_seven(counts, &[6, 5, 4, 3, 2, 1, 0], 0);
    try_seven(counts, &[3, 6, 0, 5, 2, 4, 1], 0);
    try_seven(counts, &[2, 4, 6, 1, 3, 5, 0], 2);
    try_seven(counts, &[5, 3, 1, 6, 4, 2, 0], 3);
}
