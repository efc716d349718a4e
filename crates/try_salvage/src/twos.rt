// Every two slots of a tree damaged together.
use crate::ask::ask;
use crate::refuse::copy;
use slots::{HASH, KEY, STATE, get, name, put, put_name};

// The lines of the ways: two pairs exchanged, the pair of the one repeated in the other, two states exchanged, and a pair repeated while
// the first of the two gets an unknown state.
// Form kept: numbers, since a line is a place in the table of counts, and those of the words are found from the numbers of the fields.
const PAIRS: u32 = 10;

const REPEATED: u32 = 11;

const STATES: u32 = 12;

const UNKNOWN: u32 = 13;

// Slot j gets the pair of slot i as it is in another tree.
fn put_pair_of(names0: &[u64], names: &mut [u64], i: u32, j: u32) {
    put_name(names, j, HASH, name(names0, i, HASH));
    put_name(names, j, KEY, name(names0, i, KEY));
}

// Every two slots, in both orders, damaged in a way, asked, and restored. A slot is not damaged with itself.
fn try_way<Damage: Fn(&mut [u64], &mut [u32], u32, u32)>(
    counts: &mut [u32],
    names0: &[u64],
    cells0: &[u32],
    names: &mut [u64],
    cells: &mut [u32],
    n: u32,
    line: u32,
    damage: Damage,
)
    requires { Damage.IsAlwaysCallable damage }
{
    for i in 0..n {
        for j in 0..n {
            if i != j {
                damage(names, cells, i, j);
                ask(counts, line, names0, cells0, names, cells, n);
                copy(names0, names);
                copy(cells0, cells);
            }
        }
    }
}

// Every two slots damaged in each way. What is lent to be damaged is as the tree before the damage.
pub fn try_twos(
    counts: &mut [u32],
    names0: &[u64],
    cells0: &[u32],
    names: &mut [u64],
    cells: &mut [u32],
    n: u32,
) {
    try_way(
        counts,
        names0,
        cells0,
        names,
        cells,
        n,
        PAIRS,
        |names, _, i, j| {
            put_pair_of(names0, names, i, j);
            put_pair_of(names0, names, j, i);
        },
    );
    try_way(
        counts,
        names0,
        cells0,
        names,
        cells,
        n,
        REPEATED,
        |names, _, i, j| { put_pair_of(names0, names, i, j) },
    );
    try_way(
        counts,
        names0,
        cells0,
        names,
        cells,
        n,
        STATES,
        |_, cells, i, j| {
            put(cells, i, STATE, get(cells0, j, STATE));
            put(cells, j, STATE, get(cells0, i, STATE));
        },
    );
    try_way(
        counts,
        names0,
        cells0,
        names,
        cells,
        n,
        UNKNOWN,
        |names, cells, i, j| {
            put_pair_of(names0, names, i, j);
            put(cells, i, STATE, 3);
        },
    );
}
