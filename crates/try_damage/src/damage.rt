// Damages a sound tree in each single word, and compares the verdict on each damaged tree with that of a second, naive judge.
// A damaged tree can be sound still: where the word is set to what it was, where it is the place of a used slot, which no rule
// binds, and where it is a part of a name that stays between its neighbours' names.
ghost use Rattle.std.specs.Prelude.{◌≡◌, length};

use crate::build::{Tree, grown};
use crate::judge::judge;
use index::check::check;
use index::insert::{InsertRefusal, insert};
use index::sound::sound;
use slots::NULL;
use std::io;
use std::io::Stdout;
use trials::print::figure;

// What came of the damaged trees: how many there were, sound and not, judged otherwise by the naive judge, and passed by the
// source's own check.
#[derive(Clone, Copy, Default)]
pub struct Tally {
    pub tried: u32,
    pub yes: u32,
    pub no: u32,
    pub differences: u32,
    pub passes: u32,
}

// A count that does not come near 32 bits, with one more where something is so.
fn counted(count: u32, so: bool) -> u32 {
    count.wrapping_add(u32::from(so))
}

// The tally with one more tree, asked of all three judges.
pub fn compare(t: Tally, names: &[u64], cells: &[u32], head: &[u32], sizes: &[u32]) -> Tally {
    let own = sound(names, cells, head, sizes).ok();
    let passes = matches!(check(names, cells, head), Ok(None));
    let naive = judge(names, cells, head, sizes);
    Tally {
        tried: counted(t.tried, true),
        yes: counted(t.yes, own == Some(true)),
        no: counted(t.no, own == Some(false)),
        differences: counted(t.differences, own != Some(naive)),
        passes: counted(t.passes, passes),
    }
}

// What a word is damaged to.
#[derive(Clone, Copy)]
enum Damage {
    Zero,
    Null,
    LastSlot,
    PastLast,
    Largest, // of the links that are not null
    OneMore, // than it was; one more than the largest word is 0
}

const DAMAGES: [Damage; 6] = [
    Damage::Zero,
    Damage::Null,
    Damage::LastSlot,
    Damage::PastLast,
    Damage::Largest,
    Damage::OneMore,
];

fn damaged(old: u32, damage: Damage) -> u32 {
    match damage {
        Damage::Zero => 0,
        Damage::Null => NULL,
        Damage::LastSlot => 63,
        Damage::PastLast => 64,
        Damage::Largest => 4294967294,
        Damage::OneMore => old.wrapping_add(1),
    }
}

// The same of a part of a name.
fn damaged_name(old: u64, damage: Damage) -> u64 {
    match damage {
        Damage::OneMore => old.wrapping_add(1),
        _ => u64::from(damaged(0, damage)),
    }
}

// Damages each word in each way, asks, and restores it.
fn try_words<T: Copy, D: Fn(T, Damage) -> T, F: FnMut(&[T])>(
    words: &mut [T],
    damaged: D,
    mut ask: F,
)
    requires callable { D.IsAlwaysCallable damaged × F.IsAlwaysCallable ask }
{
    for k in 0..words.len() {
        let old = words[k];
        for damage in DAMAGES {
            words[k] = damaged(old, damage);
            ask(words);
        }
        words[k] = old;
    }
}

fn report(stdout: Stdout, t: Tally) -> io::Result<()> {
    figure(stdout, b"tried", t.tried)?;
    figure(stdout, b"yes", t.yes)?;
    figure(stdout, b"no", t.no)?;
    figure(stdout, b"differences", t.differences)?;
    figure(stdout, b"check passes", t.passes)
}

// The tally of the damaged trees; that of the tree itself if it is not found sound.
fn try_each(tree: Tree) -> Tally {
    let Tree {
        mut names,
        mut cells,
        mut head,
        mut sizes,
    } = tree;
    let whole = compare(Tally::default(), &names, &cells, &head, &sizes);
    if whole.yes != 1 || whole.differences != 0 {
        return whole;
    }
    let mut t = Tally::default();
    try_words(
        &mut names,
        damaged_name,
        |names| t = compare(t, names, &cells, &head, &sizes),
    );
    try_words(
        &mut cells,
        damaged,
        |cells| t = compare(t, &names, cells, &head, &sizes),
    );
    try_words(
        &mut head,
        damaged,
        |head| t = compare(t, &names, &cells, head, &sizes),
    );
    try_words(
        &mut sizes,
        damaged,
        |sizes| t = compare(t, &names, &cells, &head, sizes),
    );
    t
}

// What came of the sizes that were changed to another number: how many there were, and those for which insert answered 2.
#[derive(Clone, Copy, Default)]
struct Sized {
    changed: u32,
    refused: u32,
}

// Damages each word of the sizes in each way, and asks insert where that is another number.
fn ask_sizes(tree: Tree) -> Sized {
    let Tree {
        mut names,
        mut cells,
        mut head,
        mut sizes,
    } = tree;
    let mut lines = [0u64; 7];
    let mut t = Sized::default();
    for k in 0..64 {
        let old = sizes[k];
        for damage in DAMAGES {
            let new = damaged(old, damage);
            if new != old {
                sizes[k] = new;
                let inserted = insert(
                    &mut names, &mut cells, &mut head, &mut sizes, &mut lines, 1, 1, 1,
                );
                t.changed = counted(t.changed, true);
                t.refused = counted(t.refused, matches!(inserted, Err(InsertRefusal::Damaged)));
            }
        }
        sizes[k] = old;
    }
    t
}

fn report_sizes(stdout: Stdout, t: Sized) -> io::Result<()> {
    figure(stdout, b"sizes changed", t.changed)?;
    figure(stdout, b"insert answers 2", t.refused)
}

pub fn run(stdout: Stdout) -> io::Result<()> {
    report(stdout, try_each(grown()))?;
    report_sizes(stdout, ask_sizes(grown()))
}
