// The short script, cut after every call and rolled back to every mark.
use crate::chain::{Order, before_another};
use crate::sources::{feed_line, text_room};
use crate::steps::{counted, length, line_end, more};
use crate::table::{cut_at, note, same};
use crate::words::{Words, after, empty, exchanged, length_of, rolled_back, sound, with_key};

// The slots that the pairs of the short script take.
const SLOTS: u32 = 24;

// What came of the cuts: rollbacks, those after which something differs, names planted and noticed, neighbours of the chain exchanged and
// noticed.
#[derive(Clone, Copy, Default)]
pub struct Tally {
    pub cuts: u32,
    pub rollbacks: u32,
    pub differences: u32,
    pub planted: u32,
    pub noticed: u32,
    pub exchanged: u32,
    pub seen: u32,
}

// A call of the short script, with what the tree then holds noted where the call wrote a line. After any other call the row of an
// earlier call stands, so that a refusal that writes, and a rollback that brings back something else, are noticed too.
// Form kept: the slices stand apart, as the library's calls take them; a struct of them would be taken apart again at each call.
fn call_noted(
    line: &[u8],
    names: &mut [u64],
    cells: &mut [u32],
    head: &mut [u32],
    sizes: &mut [u32],
    lines: &mut [u64],
    rows: &mut [u32],
    out: &mut [u8],
) {
    let before = length(lines);
    let _ = feed_line(line, b"", 0, names, cells, head, sizes, lines, out);
    let after = length(lines);
    if before < after {
        note(rows, after, names, cells, head);
    }
}

// The short script up to a cut, call by call.
fn run_noted(
    part: &[u8],
    names: &mut [u64],
    cells: &mut [u32],
    head: &mut [u32],
    sizes: &mut [u32],
    lines: &mut [u64],
    rows: &mut [u32],
    out: &mut [u8],
) {
    note(rows, 0, names, cells, head);
    let mut at = 0;
    while at < part.len() {
        let end = line_end(part, at);
        call_noted(&part[at..end], names, cells, head, sizes, lines, rows, out);
        at = end;
    }
}

// The index after the short script up to a cut, with its rows noted.
fn run_to(part: &[u8], rows: &mut [u32]) -> Words {
    let mut out = text_room();
    let (words, _) = after(&empty(512, 512), |names, cells, head, sizes, lines| {
        run_noted(part, names, cells, head, sizes, lines, rows, &mut out)
    });
    words
}

// Whether the tree holds and lists what row m says.
fn as_row(x: &Words, m: u32, rows: &[u32]) -> bool {
    same(rows, m, &x.names, &x.cells, &x.head)
}

// What a rollback and the planting after it came to.
#[derive(Clone, Copy)]
struct Trial {
    right: bool,
    planted: bool,
    noticed: bool,
    exchanged: bool,
    seen: bool,
}

// Exchanges two neighbours of the chain: whether the tree is sound then, and the comparison notices.
fn plant_order(x: &Words, m: u32, rows: &[u32]) -> Order {
    let Some(earlier) = before_another(&x.cells, &x.head, m % SLOTS) else {
        return Order::default();
    };
    let other = exchanged(x, earlier);
    let planted = sound(&other);
    Order {
        planted,
        seen: planted && !as_row(&other, m, rows),
    }
}

// A key that the script does not use.
fn unused(k: u32) -> u64 {
    (24 + k % 24) as u64
}

// Rolls back to mark m and holds what is left against what was noted at the mark; then exchanges two neighbours of the chain, or plants a
// name, and compares again.
fn roll_and_plant(x: &Words, m: u32, rows: &[u32]) -> Trial {
    let (left, right) = rolled_back(x, m, length_of(x).wrapping_sub(m));
    let order = plant_order(&left, m, rows);
    let (other, planted) = with_key(&left, unused(m));
    Trial {
        right: right && sound(&left) && as_row(&left, m, rows) && cut_at(&left.lines, &x.lines, m),
        planted,
        noticed: planted && !as_row(&other, m, rows),
        exchanged: order.planted,
        seen: order.seen,
    }
}

// The tally with one more trial.
fn tallied(t: Tally, tried: Trial) -> Tally {
    Tally {
        cuts: t.cuts,
        rollbacks: more(t.rollbacks, 1),
        differences: counted(t.differences, !tried.right),
        planted: counted(t.planted, tried.planted),
        noticed: counted(t.noticed, tried.noticed),
        exchanged: counted(t.exchanged, tried.exchanged),
        seen: counted(t.seen, tried.seen),
    }
}

// A cut of the short script, rolled back to every mark.
fn try_marks(t: Tally, part: &[u8], rows: &mut [u32]) -> Tally {
    let marks = more(length_of(&run_to(part, rows)), 1);
    let mut after = t;
    for m in 0..marks {
        let x = run_to(part, rows);
        after = tallied(after, roll_and_plant(&x, m, rows));
    }
    Tally {
        cuts: more(after.cuts, 1),
        ..after
    }
}

// The short script, cut after every call.
pub fn try_short(script: &[u8], rows: &mut [u32]) -> Tally {
    let mut after = Tally::default();
    let mut at = 0;
    while at < script.len() {
        at = line_end(script, at);
        after = try_marks(after, &script[..at], rows);
    }
    after
}
