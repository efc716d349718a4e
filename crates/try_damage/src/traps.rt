// Four trees that pass the source's own check and are not sound, each one word or two away from a sound tree.
use index::check::check;
use index::sound::sound;
use slots::answer::Answers;
use slots::{BLACK, HASH, LEFT, NEXT, NULL, PARENT, PLACE, PREV, RED, RIGHT, STATE, put, put_name};
use std::io;
use std::io::Stdout;
use trials::print::{answer, say, verdict};

// Asks both checks of a tree whose root is slot 0, at the front of the chain, and whose four slots are used and have 4, 2, 1 and 1
// pairs in their subtrees.
fn ask(stdout: Stdout, label: &[u8], names: &[u64], cells: &[u32]) -> io::Result<()> {
    let head = [0u32, 0, 4];
    say(stdout, label)?;
    let checked = check(names, cells, &head).answer();
    answer(stdout, b": check ", b"passes", checked)?;
    let soundness = sound(names, cells, &head, &[4u32, 2, 1, 1]).answer();
    verdict(stdout, b", sound ", b"no ", soundness)?;
    say(stdout, b"\n")
}

// The root, its left child, its right child, and the left child's right child, by their pairs.
fn pairs() -> [u64; 8] {
    [30, 0, 10, 0, 50, 0, 20, 0]
}

// The place of slot i, which is its number, and its state.
// Form kept: try_walks has fill, hang and follow too; public ones would owe contracts and claims longer than they are.
fn fill(cells: &mut [u32], i: u32, state: u32) {
    put(cells, i, PLACE, i);
    put(cells, i, STATE, state);
}

// Slot c becomes the child of slot p at the field f.
fn hang(cells: &mut [u32], p: u32, f: u32, c: u32) {
    put(cells, p, f, c);
    put(cells, c, PARENT, p);
}

// Slot j comes behind slot i in the chain.
fn follow(cells: &mut [u32], i: u32, j: u32) {
    put(cells, i, NEXT, j);
    put(cells, j, PREV, i);
}

// A root and its two children, all black.
fn three() -> [u32; 28] {
    let mut cells = [NULL; 28];
    fill(&mut cells, 0, BLACK);
    fill(&mut cells, 1, BLACK);
    fill(&mut cells, 2, BLACK);
    hang(&mut cells, 0, LEFT, 1);
    hang(&mut cells, 0, RIGHT, 2);
    cells
}

// A black root with two black children, the left of which has a red right child. The chain goes by the slots' numbers.
fn words() -> [u32; 28] {
    let mut cells = three();
    fill(&mut cells, 3, RED);
    hang(&mut cells, 1, RIGHT, 3);
    follow(&mut cells, 0, 1);
    follow(&mut cells, 1, 2);
    follow(&mut cells, 2, 3);
    cells
}

fn sound_tree(stdout: Stdout) -> io::Result<()> {
    ask(stdout, b"sound tree", &pairs(), &words())
}

// The two children are red too. The grandchild is the only child of a red slot, and the check looks for two red children.
fn red_under_red(stdout: Stdout) -> io::Result<()> {
    let mut cells = words();
    put(&mut cells, 1, STATE, RED);
    put(&mut cells, 2, STATE, RED);
    ask(stdout, b"one red child under red", &pairs(), &cells)
}

// The check does not ask the colour of the root.
fn red_root(stdout: Stdout) -> io::Result<()> {
    let mut cells = words();
    put(&mut cells, 0, STATE, RED);
    ask(stdout, b"red root", &pairs(), &cells)
}

// The grandchild is black, so that the way to it has a black slot more. The check counts none.
fn unequal_blacks(stdout: Stdout) -> io::Result<()> {
    let mut cells = words();
    put(&mut cells, 3, STATE, BLACK);
    ask(stdout, b"unequal black counts", &pairs(), &cells)
}

// The grandchild, below the root on the left, is greater than the root. The check compares it with its parent alone.
fn misplaced_grandchild(stdout: Stdout) -> io::Result<()> {
    let mut names = pairs();
    put_name(&mut names, 3, HASH, 40);
    ask(stdout, b"misplaced grandchild", &names, &words())
}

pub fn run(stdout: Stdout) -> io::Result<()> {
    sound_tree(stdout)?;
    red_under_red(stdout)?;
    red_root(stdout)?;
    unequal_blacks(stdout)?;
    misplaced_grandchild(stdout)
}
