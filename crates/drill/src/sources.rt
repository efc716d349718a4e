// One call, some or all of a source: a script, which is fed to the console, or a list of calls, which are made one by one.
use crate::words::{Words, after};
use console::feed::{blank, feed};
use index::insert::insert;
use index::journal::{INSERT, MOST_PLACES, REMOVE, REPLACE};
use index::remove::remove;
use index::replace::replace;
use index::rollback::rollback;
use slots::answer::{Answers, word_with};
use slots::name;
use trials::play::{agrees, play};

#[derive(Clone, Copy)]
pub enum Source<'a> {
    Script {
        script: &'a [u8],
        answers: &'a [u8], // to all calls, one behind another
        starts: &'a [u64], // the byte at which each call starts
    },
    List {
        calls: &'a [u64], // four words to a call: its kind, hash, key and place
        words: &'a [u64], // what each call has to answer
    },
}

// Makes call k of a list and answers its word, value + 2^32 * number: a kind that is no line's is a rollback, to the mark that stands
// for the place.
// Form kept: the slices stand apart, as the library's calls take them; a struct of them would be taken apart again at each call.
fn make(
    calls: &[u64],
    k: u32,
    names: &mut [u64],
    cells: &mut [u32],
    head: &mut [u32],
    sizes: &mut [u32],
    lines: &mut [u64],
) -> u64 {
    let hash = call_word(calls, k, 1);
    let key = call_word(calls, k, 2);
    let place = (call_word(calls, k, 3) % MOST_PLACES) as u32;
    let answer = match call_word(calls, k, 0) {
        INSERT => insert(names, cells, head, sizes, lines, hash, key, place).answer(),
        REMOVE => remove(names, cells, head, sizes, lines, hash, key).answer(),
        REPLACE => replace(names, cells, head, sizes, lines, hash, key, place).answer(),
        _ => rollback(names, cells, head, sizes, lines, place).answer(),
    };
    word_with(0, answer)
}

// Word f of call k.
fn call_word(calls: &[u64], k: u32, f: u32) -> u64 {
    name(calls, 0, k % 4096 * 4 + f % 4)
}

// A line of a script, and how far its answer is the one expected from a place on.
pub fn feed_line(
    line: &[u8],
    answers: &[u8],
    said: usize,
    names: &mut [u64],
    cells: &mut [u32],
    head: &mut [u32],
    sizes: &mut [u32],
    lines: &mut [u64],
    out: &mut [u8],
) -> Result<usize, usize> {
    let fed = feed(blank(), line, names, cells, head, sizes, lines, out);
    agrees(answers, said, &out[..fed.written])
}

// Call k of a script; all of it where no call has that number.
fn line_of<'a>(script: &'a [u8], starts: &[u64], k: u32) -> &'a [u8] {
    let start = name(starts, 0, k) as usize;
    let end = name(starts, 0, k.wrapping_add(1)) as usize;
    script.get(start..end).unwrap_or(script)
}

// Call k, and how far the answers are those expected. A list has no place among them.
fn call(
    source: Source,
    k: u32,
    said: usize,
    names: &mut [u64],
    cells: &mut [u32],
    head: &mut [u32],
    sizes: &mut [u32],
    lines: &mut [u64],
    out: &mut [u8],
) -> Result<usize, usize> {
    match source {
        Source::Script {
            script,
            answers,
            starts,
        } => {
            let line = line_of(script, starts, k);
            feed_line(line, answers, said, names, cells, head, sizes, lines, out)
        }
        Source::List { calls, words } => {
            let word = make(calls, k, names, cells, head, sizes, lines);
            if word == name(words, 0, k) {
                Ok(said)
            } else {
                Err(said)
            }
        }
    }
}

// A room for what the console says. Its length is large, and a proof that has the zeros before it counts them: here it only has that
// there are so many.
// Form kept: each program that needs such a room has its own, since a public one would owe a claim that counts its zeros.
pub(crate) fn text_room() -> [u8; 524288] {
    [0; 524288]
}

// After call k, and how far the answers are those expected.
pub fn after_call(x: &Words, source: Source, k: u32, said: usize) -> (Words, Result<usize, usize>) {
    let mut out = text_room();
    after(x, |names, cells, head, sizes, lines| {
        call(source, k, said, names, cells, head, sizes, lines, &mut out)
    })
}

// After n calls, of which each is the one that its turn says, and whether each answers as is expected of a list.
pub(crate) fn after_many<F: Fn(u32) -> u32>(
    x: &Words,
    source: Source,
    which: F,
    n: u32,
) -> (Words, bool)
    requires { F.IsAlwaysCallable which }
{
    let mut out = text_room();
    after(x, |names, cells, head, sizes, lines| {
        many(source, which, n, names, cells, head, sizes, lines, &mut out)
    })
}

fn many<F: Fn(u32) -> u32>(
    source: Source,
    which: F,
    n: u32,
    names: &mut [u64],
    cells: &mut [u32],
    head: &mut [u32],
    sizes: &mut [u32],
    lines: &mut [u64],
    out: &mut [u8],
) -> bool
    requires { F.IsAlwaysCallable which }
{
    let mut right = true;
    for turn in 0..n {
        let met = call(
            source,
            which(turn),
            0,
            names,
            cells,
            head,
            sizes,
            lines,
            out,
        );
        right = right && met.is_ok();
    }
    right
}

// After all n calls of a source, and whether the answers are those expected, and no others.
pub fn after_all(x: &Words, source: Source, n: u32) -> (Words, bool) {
    match source {
        Source::Script {
            script,
            answers,
            ..
        } => {
            let mut out = text_room();
            after(x, |names, cells, head, sizes, lines| {
                let met = play(
                    script, 65536, answers, names, cells, head, sizes, lines, &mut out,
                );
                met == Ok(answers.len())
            })
        }
        Source::List { .. } => after_many(x, source, |turn| turn, n),
    }
}
