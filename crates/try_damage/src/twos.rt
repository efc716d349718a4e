// Damages a sound tree in two slots at a time, in ways that leave its links consistent, for every two slots of it, and compares the
// verdict on each tree with that of the naive judge. A slot that is moved in the chain leaves the tree sound where both are used.
use crate::build::{Tree, grown};
use crate::damage::{Tally, compare};
use slots::{
    BLACK, HASH, KEY, LEFT, NEXT, NULL, PARENT, PREV, RED, RIGHT, STATE, get, name, put, put_name,
};
use std::io;
use std::io::Stdout;
use trials::print::{number, say};

// The word of the header that holds the first slot of the chain.
const FIRST: u32 = 1;

// Slots i and j exchange word f of their names.
// Form kept: try_why has this and others of the routines below too; public ones would owe contracts and claims longer than they are.
fn swap_name(names: &mut [u64], i: u32, j: u32, f: u32) {
    let own = name(names, i, f);
    let other = name(names, j, f);
    put_name(names, i, f, other);
    put_name(names, j, f, own);
}

// Slots i and j exchange their states.
fn swap_states(cells: &mut [u32], i: u32, j: u32) {
    let own = get(cells, i, STATE);
    let other = get(cells, j, STATE);
    put(cells, i, STATE, other);
    put(cells, j, STATE, own);
}

// Slot i changes its colour; a free slot has none.
fn turn(cells: &mut [u32], i: u32) {
    match get(cells, i, STATE) {
        BLACK => {
            put(cells, i, STATE, RED);
        }
        RED => {
            put(cells, i, STATE, BLACK);
        }
        _ => {}
    }
}

// Slot i leaves the chain: its neighbours are joined. Where it has none, there is no word to write.
fn unchain(cells: &mut [u32], head: &mut [u32], i: u32) {
    let before = get(cells, i, PREV);
    let after = get(cells, i, NEXT);
    put(cells, before, NEXT, after);
    put(cells, after, PREV, before);
    if get(head, 0, FIRST) == i {
        put(head, 0, FIRST, after);
    }
}

// Slot i joins the chain behind slot j.
fn chain_behind(cells: &mut [u32], i: u32, j: u32) {
    let after = get(cells, j, NEXT);
    put(cells, j, NEXT, i);
    put(cells, i, PREV, j);
    put(cells, i, NEXT, after);
    put(cells, after, PREV, i);
}

// The link of slot p at field f is null if it named slot i.
fn unhook(cells: &mut [u32], p: u32, f: u32, i: u32) {
    if get(cells, p, f) == i {
        put(cells, p, f, NULL);
    }
}

// Slot i, with all that is below it, leaves its parent.
fn unhang(cells: &mut [u32], i: u32) {
    let parent = get(cells, i, PARENT);
    unhook(cells, parent, LEFT, i);
    unhook(cells, parent, RIGHT, i);
}

// Slot i becomes a child of slot j, on the left where that is null, or else on the right.
fn hang_below(cells: &mut [u32], i: u32, j: u32) {
    put(cells, i, PARENT, j);
    if get(cells, j, LEFT) == NULL {
        put(cells, j, LEFT, i);
    } else {
        put(cells, j, RIGHT, i);
    }
}

// Every two slots, in both orders, damaged in a way; a slot is not damaged with itself.
fn try_twos<F: Fn(&mut Tree, u32, u32)>(tree: Tree, twist: F) -> Tally
    requires { F.IsAlwaysCallable twist }
{
    let mut t = Tally::default();
    for i in 0..64 {
        for j in 0..64 {
            if i != j {
                let mut other = tree;
                twist(&mut other, i, j);
                t = compare(t, &other.names, &other.cells, &other.head, &other.sizes);
            }
        }
    }
    t
}

// One line to a way.
fn report(stdout: Stdout, label: &[u8], t: Tally) -> io::Result<()> {
    say(stdout, label)?;
    number(stdout, b": tried ", t.tried)?;
    number(stdout, b", yes ", t.yes)?;
    number(stdout, b", no ", t.no)?;
    number(stdout, b", differences ", t.differences)?;
    number(stdout, b", check passes ", t.passes)?;
    say(stdout, b"\n")
}

pub fn run(stdout: Stdout) -> io::Result<()> {
    let tree = grown();
    let pairs = try_twos(tree, |tree, i, j| {
        swap_name(&mut tree.names, i, j, HASH);
        swap_name(&mut tree.names, i, j, KEY);
    });
    report(stdout, b"two pairs exchanged", pairs)?;
    let states = try_twos(tree, |tree, i, j| swap_states(&mut tree.cells, i, j));
    report(stdout, b"two states exchanged", states)?;
    let colours = try_twos(tree, |tree, i, j| {
        turn(&mut tree.cells, i);
        turn(&mut tree.cells, j);
    });
    report(stdout, b"two colours changed", colours)?;
    let moved = try_twos(tree, |tree, i, j| {
        unchain(&mut tree.cells, &mut tree.head, i);
        chain_behind(&mut tree.cells, i, j);
    });
    report(stdout, b"a slot moved in the chain", moved)?;
    let hung = try_twos(tree, |tree, i, j| {
        unhang(&mut tree.cells, i);
        hang_below(&mut tree.cells, i, j);
    });
    report(stdout, b"a slot hung elsewhere with all below it", hung)
}
