// Runs the source's own answers, a fixed list of calls, words and verdicts, and compares each with ours.
#![tactic(auto)]

mod calls;
mod list;
mod words;

use calls::line;
use index::fresh::fresh;
use list::List;
use std::io;
use std::io::Stdout;
use trials::load::load;
use trials::print::figure;

// The lines of a tree, up to the next tree: how many there were and how many of them differ.
#[derive(Clone, Copy)]
struct Seen {
    lines: u32,
    wrong: u32,
}

// The lines of a tree of so many slots, up to the kind 0, with which the next tree begins. No tree of the list has as many lines as turns.
fn lines(
    list: &mut List<'_>,
    names: &mut [u64],
    cells: &mut [u32],
    sizes: &mut [u32],
    slots: u32,
) -> Seen {
    let mut head = [0u32; 3];
    let mut journal = [0u64; 1];
    let _made = fresh(names, cells, &mut head, sizes, &mut journal);
    let mut seen = Seen { lines: 0, wrong: 0 };
    for _ in 0..1000 {
        let here = *list;
        let kind = list.number();
        if kind == 0 {
            *list = here;
            return seen;
        }
        let same = line(list, kind, names, cells, &mut head, sizes, slots);
        seen.lines = seen.lines.saturating_add(1);
        if !same {
            seen.wrong = seen.wrong.saturating_add(1);
        }
    }
    seen
}

// A tree: the number of its slots, at most 16, then its lines.
fn tree(list: &mut List<'_>) -> Seen {
    let mut names = [0u64; 32];
    let mut cells = [0u32; 112];
    let mut sizes = [0u32; 16];
    let _kind = list.number();
    let slots = list.number();
    let n = slots as usize;
    if 16 < n {
        list.end();
        return Seen { lines: 1, wrong: 1 };
    }
    lines(
        list,
        &mut names[..2 * n],
        &mut cells[..7 * n],
        &mut sizes[..n],
        slots,
    )
}

// Every tree of the list. It has fewer trees than turns.
fn trees(stdout: Stdout, text: &[u8]) -> io::Result<()> {
    let mut list = List::new(text);
    let mut count: u32 = 0;
    let mut all = Seen { lines: 0, wrong: 0 };
    for _ in 0..1000 {
        if !list.is_empty() {
            let seen = tree(&mut list);
            count = count.saturating_add(1);
            all.lines = all.lines.saturating_add(seen.lines);
            all.wrong = all.wrong.saturating_add(seen.wrong);
        }
    }
    figure(stdout, b"trees", count)?;
    figure(stdout, b"lines", all.lines)?;
    figure(stdout, b"differences", all.wrong)
}

fn main(rt: HostRuntime) -> io::Result<()> {
    let stdout = rt.stdout();
    let mut text = [0u8; 131072];
    let n = load(&rt, b"sample.txt", &mut text);
    if 131072 <= n {
        return figure(stdout, b"no list", 1);
    }
    trees(stdout, &text[..n])
}
