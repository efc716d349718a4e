// What `./salvage` makes of the bytes of a dump.
ghost use Rattle.std.specs.Prelude.{◌≡◌, ◌≤◌, length, drop};
ghost use Rattle.slots.specs.Words.{most_slots, most_lines};
ghost use Rattle.script_rules.specs.Feeding.{typed, lent_paper};
ghost use Rattle.index_rules.specs.Index.{lent};
ghost use Rattle.night.specs.Salvages.{salvage_of};
ghost use Rattle.dump_rules.specs.Rescue.{loss_text, loss_texts, kept_of, rescue_text, saved_bytes, saved_text, loaded_bytes, loaded_text};
ghost use Rattle.dump_rules.specs.Rescue.{measure_bytes, measure_words, rescue_bytes, rescue_words, papers, rescues};
ghost use Rattle.dump_rules.specs.Sentence.{why_text};
ghost use Rattle.dump_rules.specs.Dump.{whole, loaded_as};

use crate::answer::{MOST_JOURNAL, tell_bytes};
use crate::load::load;
use crate::measure::gauge;
use crate::write::write;
use console::fill::fill;
use index::fresh::fresh;
use index::sound::used_slots;
use night::salvage::salvage;
use slots::{MOST_CELLS, MOST_NAMES, MOST_SLOTS, NULL, STATE, get, word};

// The line of a slot that was used and not kept.
// Form kept: numbers and no enum, since the report is a slice of words, and the rules' loss_text reads them so.
fn tell_loss(out: &mut [u8], at: usize, cells: &[u32], report: &[u32], i: u32) -> usize
    ensures { lent_paper out.new result
        ≡ typed (lent_paper out.old at) (loss_text cells.now report.now i) }
{
    let w = word(report, i as usize, NULL);
    if w == 2 {
        let state = get(cells, i, STATE);
        let numbers = [i as u64, state as u64];
        return fill(out, at, b"slot #: unknown state #\n", &numbers);
    }
    if 2 < w {
        let numbers = [i as u64, (w - 3) as u64];
        return fill(out, at, b"slot #: repeats slot #\n", &numbers);
    }
    at
}

// The lines of n slots.
fn tell_losses(out: &mut [u8], at: usize, n: u32, cells: &[u32], report: &[u32]) -> usize
    ensures { lent_paper out.new result
        ≡ typed (lent_paper out.old at) (loss_texts n cells.now report.now 0) }
{
    let mut end = at;
    for i in 0..n {
        end = tell_loss(out, end, cells, report, i);
    }
    end
}

// The lines, and how many of the slots that were not free are kept.
fn tell_saved(out: &mut [u8], at: usize, n: u32, cells: &[u32], report: &[u32], kept: u32) -> usize
    ensures { lent_paper out.new result
        ≡ typed (lent_paper out.old at) (rescue_text n cells.now report.now kept) }
{
    let listed = tell_losses(out, at, n, cells, report);
    let used = used_slots(cells, n);
    let numbers = [kept as u64, used as u64];
    fill(out, listed, b"kept # of #\n", &numbers)
}

// How many bytes of a dump and of a text were written.
#[derive(Clone, Copy)]
pub struct Rescued {
    pub dumped: usize,
    pub said: usize,
}

// An index is made empty, what can be saved is saved into it, and it is dumped; the text says what was lost.
fn save_into(
    n: u32,
    c: u32,
    names: &[u64],
    cells: &[u32],
    names2: &mut [u64],
    cells2: &mut [u32],
    head2: &mut [u32],
    sizes2: &mut [u32],
    lines2: &mut [u64],
    report: &mut [u32],
    out: &mut [u8],
    text: &mut [u8],
) -> Rescued
    ensures { (lent_paper out.new result.dumped
        ≡ typed (lent_paper out.old 0)
        (saved_bytes n c names.now cells.now
        (lent names2.old cells2.old head2.old sizes2.old lines2.old)
        report.old))
        × (lent_paper text.new result.said
        ≡ typed (lent_paper text.old 0)
        (saved_text n names.now cells.now
        (lent names2.old cells2.old head2.old sizes2.old lines2.old)
        report.old)) }
{
    let _ = fresh(names2, cells2, head2, sizes2, lines2);
    let kept = salvage(names, cells, names2, cells2, head2, sizes2, report).unwrap_or(0);
    let dumped = write(out, 0, n, c, names2, cells2, head2, sizes2, lines2);
    let said = tell_saved(text, 0, n, cells, report, kept);
    Rescued { dumped, said }
}

// The words of a dump are read into the first five slices, and what can be saved of them goes by way of the others.
fn save_loaded(
    bytes: &[u8],
    n: u32,
    c: u32,
    names: &mut [u64],
    cells: &mut [u32],
    head: &mut [u32],
    sizes: &mut [u32],
    lines: &mut [u64],
    names2: &mut [u64],
    cells2: &mut [u32],
    head2: &mut [u32],
    sizes2: &mut [u32],
    lines2: &mut [u64],
    report: &mut [u32],
    out: &mut [u8],
    text: &mut [u8],
) -> Rescued
    ensures { (lent_paper out.new result.dumped
        ≡ typed (lent_paper out.old 0)
        (loaded_bytes n c
        (loaded_as (length names.old) (length cells.old) (length head.old) (length sizes.old)
        (length lines.old) (drop 8 bytes.now))
        (lent names2.old cells2.old head2.old sizes2.old lines2.old)
        report.old))
        × (lent_paper text.new result.said
        ≡ typed (lent_paper text.old 0)
        (loaded_text n
        (loaded_as (length names.old) (length cells.old) (length head.old) (length sizes.old)
        (length lines.old) (drop 8 bytes.now))
        (lent names2.old cells2.old head2.old sizes2.old lines2.old)
        report.old)) }
{
    load(bytes, names, cells, head, sizes, lines);
    save_into(
        n, c, names, cells, names2, cells2, head2, sizes2, lines2, report, out, text,
    )
}

// Of a dump of n slots and c lines: the fronts of the longest slices take its words, and those of the second index.
fn save_dump(bytes: &[u8], n: u32, c: u32, out: &mut [u8], text: &mut [u8]) -> Rescued
    requires { (n ≤ most_slots) × (c ≤ most_lines) }
    ensures { (lent_paper out.new result.dumped
        ≡ typed (lent_paper out.old 0) (measure_bytes bytes.now (whole n c)))
        × (lent_paper text.new result.said
        ≡ typed (lent_paper text.old 0) (measure_words bytes.now (whole n c))) }
{
    // Form kept: arrays of the most words, of which the fronts are used, since the library has no heap.
    let mut names = [0u64; MOST_NAMES];
    let mut cells = [0u32; MOST_CELLS];
    let mut head = [0u32; 3];
    let mut sizes = [0u32; MOST_SLOTS];
    let mut lines = [0u64; MOST_JOURNAL];
    let mut names2 = [0u64; MOST_NAMES];
    let mut cells2 = [0u32; MOST_CELLS];
    let mut head2 = [0u32; 3];
    let mut sizes2 = [0u32; MOST_SLOTS];
    let mut lines2 = [0u64; MOST_JOURNAL];
    let mut report = [0u32; MOST_SLOTS];
    let slots = n as usize;
    let words = 1 + 6 * c as usize;
    save_loaded(
        bytes,
        n,
        c,
        &mut names[..2 * slots],
        &mut cells[..7 * slots],
        &mut head,
        &mut sizes[..slots],
        &mut lines[..words],
        &mut names2[..2 * slots],
        &mut cells2[..7 * slots],
        &mut head2,
        &mut sizes2[..slots],
        &mut lines2[..words],
        &mut report[..slots],
        out,
        text,
    )
}

// Bytes that are no dump: nothing is dumped, and the text says what is wrong with them.
fn save_none(bytes: &[u8], text: &mut [u8]) -> Rescued
    ensures { (result.dumped ≡ 0)
        × (lent_paper text.new result.said ≡ typed (lent_paper text.old 0) (why_text bytes.now)) }
{
    let said = tell_bytes(bytes, text);
    Rescued { dumped: 0, said }
}

// What is written of the bytes: of a dump that of the second index, of other bytes what is wrong with them.
fn save_bytes(bytes: &[u8], out: &mut [u8], text: &mut [u8]) -> Rescued
    ensures { (lent_paper out.new result.dumped ≡ typed (lent_paper out.old 0) (rescue_bytes bytes.now))
        × (lent_paper text.new result.said ≡ typed (lent_paper text.old 0) (rescue_words bytes.now)) }
{
    match gauge(bytes) {
        Ok((n, c)) => save_dump(bytes, n, c, out, text),
        Err(_) => save_none(bytes, text),
    }
}

// Writes the dump of what can be saved, and the text that says what was lost, and answers how many bytes each has: all of them where there
// is room for the longest.
pub fn rescue(bytes: &[u8], out: &mut [u8], text: &mut [u8]) -> Rescued
    ensures said_after { papers (lent_paper out.new result.dumped) (lent_paper text.new result.said)
        ≡ rescues bytes.now (lent_paper out.old 0) (lent_paper text.old 0) }
    ensures bounds { (result.dumped ≤ length out.new) × (result.said ≤ length text.new) }
{
    save_bytes(bytes, out, text)
}
