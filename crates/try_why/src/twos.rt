// Every two slots of a tree damaged together.
use crate::ask::ask;
use slots::{
    BLACK, HASH, KEY, LEFT, NEXT, NULL, PARENT, PREV, RED, RIGHT, STATE, get, name, put, put_name,
    put_word, word,
};

// The lines of the ways, behind those of the words: first the links exchanged, each with a line of its own.
// Form kept: numbers, since a line is a place in the table of counts, and those of the links are found from the numbers of the fields.
const LINKS: u32 = 13;

const PAIRS: u32 = 18;

const STATES: u32 = 19;

const COLOURS: u32 = 20;

const SIZES: u32 = 21;

const PARENTS: u32 = 22;

const TWINS: u32 = 23;

const TREE_RING: u32 = 24;

const CHAIN_RING: u32 = 25;

const SUBTREE: u32 = 26;

const CHAIN: u32 = 27;

// Words a and b are exchanged.
// Form kept: try_damage has this and others of the routines below too; public ones would owe contracts and claims longer than they are.
fn swap_words(words: &mut [u32], a: usize, b: usize) {
    let own = word(words, a, NULL);
    let other = word(words, b, NULL);
    put_word(words, a, other);
    put_word(words, b, own);
}

// Slots i and j exchange their fields f.
fn swap_fields(words: &mut [u32], i: u32, j: u32, f: u32) {
    swap_words(
        words,
        7 * i as usize + f as usize,
        7 * j as usize + f as usize,
    );
}

// Slots i and j exchange a part of their names.
fn swap_names(names: &mut [u64], i: u32, j: u32, f: u32) {
    let own = name(names, i, f);
    let other = name(names, j, f);
    put_name(names, i, f, other);
    put_name(names, j, f, own);
}

// Slot i changes its colour; a free slot has none.
fn turn(words: &mut [u32], i: u32) {
    match get(words, i, STATE) {
        BLACK => {
            put(words, i, STATE, RED);
        }
        RED => {
            put(words, i, STATE, BLACK);
        }
        _ => {}
    }
}

// The field f of slot i names slot j, whose field g names slot i. Null has no words.
fn join(words: &mut [u32], i: u32, f: u32, j: u32, g: u32) {
    put(words, i, f, j);
    put(words, j, g, i);
}

// Slot i becomes a child of slot p at the field f.
fn hang(words: &mut [u32], i: u32, p: u32, f: u32) {
    join(words, p, f, i, PARENT);
}

// Slot j comes behind slot i in the chain.
fn follow(words: &mut [u32], i: u32, j: u32) {
    join(words, i, NEXT, j, PREV);
}

// The link of slot p at the field f is null if it named slot i.
fn unhook(words: &mut [u32], p: u32, f: u32, i: u32) {
    if get(words, p, f) == i {
        put(words, p, f, NULL);
    }
}

// Slot i, with all that is below it, leaves its parent.
fn unhang(words: &mut [u32], i: u32) {
    let parent = get(words, i, PARENT);
    unhook(words, parent, LEFT, i);
    unhook(words, parent, RIGHT, i);
}

// Slot i leaves the chain of n slots: its neighbours are joined, and the header's first is the next one where it was slot i.
fn unchain(words: &mut [u32], n: u32, i: u32) {
    let before = get(words, i, PREV);
    let after = get(words, i, NEXT);
    follow(words, before, after);
    let first = 7 * n as usize + 1;
    if word(words, first, NULL) == i {
        put_word(words, first, after);
    }
}

// Slot i becomes a child of slot j on the left where that is null, else on the right.
fn hang_below(words: &mut [u32], i: u32, j: u32) {
    if get(words, j, LEFT) == NULL {
        hang(words, i, j, LEFT);
    } else {
        hang(words, i, j, RIGHT);
    }
}

// Slot i joins the chain behind slot j.
fn chain_behind(words: &mut [u32], i: u32, j: u32) {
    let after = get(words, j, NEXT);
    follow(words, j, i);
    follow(words, i, after);
}

// Slots i and j leave the tree and are each other's child.
fn ring_beside_tree(words: &mut [u32], i: u32, j: u32) {
    unhang(words, i);
    unhang(words, j);
    hang(words, i, j, LEFT);
    hang(words, j, i, LEFT);
}

// Slots i and j leave the chain and are each other's next.
fn ring_beside_chain(words: &mut [u32], n: u32, i: u32, j: u32) {
    unchain(words, n, i);
    unchain(words, n, j);
    follow(words, i, j);
    follow(words, j, i);
}

// Writes words over as many others.
// Form kept: try_salvage has these lines too; a public routine would owe a contract and a claim longer than it is.
fn copy<T: Copy>(from: &[T], to: &mut [T]) {
    for (to, from) in to.iter_mut().zip(from) {
        *to = *from;
    }
}

// Every two slots, in both orders, damaged in a way, asked, and restored. A slot is not damaged with itself.
fn try_way<Damage: Fn(&mut [u64], &mut [u32], u32, u32)>(
    counts: &mut [u32],
    names: &mut [u64],
    words: &mut [u32],
    n: u32,
    line: u32,
    damage: Damage,
)
    requires { Damage.IsAlwaysCallable damage }
{
    let mut kept_names = [0u64; 14];
    let mut kept_words = [NULL; 59];
    copy(names, &mut kept_names);
    copy(words, &mut kept_words);
    for i in 0..n {
        for j in 0..n {
            if i != j {
                damage(names, words, i, j);
                ask(counts, line, names, words, n);
                copy(&kept_names, names);
                copy(&kept_words, words);
            }
        }
    }
}

// Fields exchanged, pairs exchanged, and colours changed.
fn try_fields(counts: &mut [u32], names: &mut [u64], words: &mut [u32], n: u32) {
    for (line, f) in (LINKS..).zip(PARENT..=NEXT) {
        try_way(counts, names, words, n, line, |_, words, i, j| {
            swap_fields(words, i, j, f)
        });
    }
    try_way(counts, names, words, n, PAIRS, |names, _, i, j| {
        swap_names(names, i, j, HASH);
        swap_names(names, i, j, KEY);
    });
    try_way(counts, names, words, n, STATES, |_, words, i, j| {
        swap_fields(words, i, j, STATE)
    });
    try_way(counts, names, words, n, COLOURS, |_, words, i, j| {
        turn(words, i);
        turn(words, j);
    });
    try_way(counts, names, words, n, SIZES, |_, words, i, j| {
        let begin = 7 * n as usize + 3;
        swap_words(words, begin + i as usize, begin + j as usize);
    });
}

// Slots linked otherwise.
fn try_links(counts: &mut [u32], names: &mut [u64], words: &mut [u32], n: u32) {
    try_way(counts, names, words, n, PARENTS, |_, words, i, j| {
        hang(words, i, j, LEFT)
    });
    try_way(counts, names, words, n, TWINS, |_, words, i, j| {
        hang(words, i, j, LEFT);
        hang(words, i, j, RIGHT);
    });
    try_way(counts, names, words, n, TREE_RING, |_, words, i, j| {
        ring_beside_tree(words, i, j)
    });
    try_way(counts, names, words, n, CHAIN_RING, |_, words, i, j| {
        ring_beside_chain(words, n, i, j)
    });
    try_way(counts, names, words, n, SUBTREE, |_, words, i, j| {
        unhang(words, i);
        hang_below(words, i, j);
    });
    try_way(counts, names, words, n, CHAIN, |_, words, i, j| {
        unchain(words, n, i);
        chain_behind(words, i, j);
    });
}

// Every two slots damaged in each way.
pub fn try_twos(counts: &mut [u32], names: &mut [u64], words: &mut [u32], n: u32) {
    try_fields(counts, names, words, n);
    try_links(counts, names, words, n);
}
