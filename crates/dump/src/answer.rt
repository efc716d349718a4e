// What is printed of the bytes of a dump.
ghost use Rattle.std.specs.Prelude.{◌≡◌, List, ℕ, ◌≤◌, length, drop};
ghost use Rattle.slots.specs.Words.{most_slots, most_lines};
ghost use Rattle.index_rules.specs.Index.{lent};
ghost use Rattle.script_rules.specs.Feeding.{typed, lent_paper};
ghost use Rattle.dump_rules.specs.Dump.{loaded_as, loaded, measured};
ghost use Rattle.dump_rules.specs.Sentence.{index_text, why_text};
ghost use Rattle.dump.specs.Measures.{no_dump_of};

use crate::load::load;
use crate::measure::{NoDump, dump_size, gauge};
use crate::say::tell_tree;
use console::fill::fill;
use slots::{MOST_CELLS, MOST_LINES, MOST_NAMES, MOST_SLOTS, word};

// The words of the longest journal.
// Form kept: intake names it too, for arrays of its own, and no crate below both has arrays of a journal.
pub(crate) const MOST_JOURNAL: usize = 1 + 6 * MOST_LINES;

// Of an index of c lines: a journal's length that passes them, or what is found of the tree.
fn tell_index(
    out: &mut [u8],
    c: u32,
    names: &[u64],
    cells: &[u32],
    head: &[u32],
    sizes: &[u32],
    lines: &[u64],
) -> usize
    ensures { lent_paper out.new result
        ≡ typed (lent_paper out.old 0)
        (index_text c (lent names.now cells.now head.now sizes.now lines.now)) }
{
    let length = word(lines, 0, 0);
    if length <= c as u64 {
        return tell_tree(out, 0, names, cells, head, sizes);
    }
    let numbers = [length, c as u64];
    fill(
        out,
        0,
        b"unfit: the journal's length # passes its # lines\n",
        &numbers,
    )
}

// The words of a dump are read into these slices, and what is found of them is written.
fn tell_loaded(
    bytes: &[u8],
    c: u32,
    names: &mut [u64],
    cells: &mut [u32],
    head: &mut [u32],
    sizes: &mut [u32],
    lines: &mut [u64],
    out: &mut [u8],
) -> usize
    ensures { lent_paper out.new result
        ≡ typed (lent_paper out.old 0)
        (index_text c
        (loaded_as (length names.old) (length cells.old) (length head.old) (length sizes.old)
        (length lines.old) (drop 8 bytes.now))) }
{
    load(bytes, names, cells, head, sizes, lines);
    tell_index(out, c, names, cells, head, sizes, lines)
}

// Of a dump of n slots and c lines: the fronts of the longest slices take its words.
fn tell_dump(bytes: &[u8], n: u32, c: u32, out: &mut [u8]) -> usize
    requires { (n ≤ most_slots) × (c ≤ most_lines) }
    ensures { lent_paper out.new result
        ≡ typed (lent_paper out.old 0) (index_text c (loaded n c bytes.now)) }
{
    // Form kept: arrays of the most words, of which the fronts are used, since the library has no heap.
    let mut names = [0u64; MOST_NAMES];
    let mut cells = [0u32; MOST_CELLS];
    let mut head = [0u32; 3];
    let mut sizes = [0u32; MOST_SLOTS];
    let mut lines = [0u64; MOST_JOURNAL];
    let slots = n as usize;
    let words = 1 + 6 * c as usize;
    tell_loaded(
        bytes,
        c,
        &mut names[..2 * slots],
        &mut cells[..7 * slots],
        &mut head,
        &mut sizes[..slots],
        &mut lines[..words],
        out,
    )
}

// What is wrong with bytes that are no dump.
// Form kept: an arm for each, since the sentences have one to four numbers, and the clause of fill speaks of just these.
fn tell_wrong(out: &mut [u8], wrong: NoDump) -> usize
    ensures { (bytes : List ℕ) → no_dump_of wrong ≡ measured bytes
        → lent_paper out.new result ≡ typed (lent_paper out.old 0) (why_text bytes) }
{
    match wrong {
        NoDump::Stub(b) => {
            let numbers = [b as u64];
            fill(
                out,
                0,
                b"short: # bytes, and a dump begins with 8\n",
                &numbers,
            )
        }
        NoDump::SlotsOut(n) => {
            let numbers = [n as u64];
            fill(
                out,
                0,
                b"over the limits: # slots, and an index has 1 to 4096\n",
                &numbers,
            )
        }
        NoDump::LinesOut(c) => {
            let numbers = [c as u64];
            fill(
                out,
                0,
                b"over the limits: # lines, and a journal has at most 1024\n",
                &numbers,
            )
        }
        NoDump::Short(b, n, c) => {
            let numbers = [b as u64, n as u64, c as u64, dump_size(n, c)];
            fill(
                out,
                0,
                b"short: # bytes, and a dump of # slots and # lines has #\n",
                &numbers,
            )
        }
        NoDump::Long(n, c) => {
            let numbers = [dump_size(n, c), n as u64, c as u64];
            fill(
                out,
                0,
                b"long: more bytes than the # of a dump of # slots and # lines\n",
                &numbers,
            )
        }
    }
}

// What is printed of the bytes: of a dump what is found of its index, of other bytes what is wrong with them.
pub(crate) fn tell_bytes(bytes: &[u8], out: &mut [u8]) -> usize
    ensures { lent_paper out.new result ≡ typed (lent_paper out.old 0) (why_text bytes.now) }
{
    match gauge(bytes) {
        Ok((n, c)) => tell_dump(bytes, n, c, out),
        Err(wrong) => tell_wrong(out, wrong),
    }
}

// Writes what is printed of the bytes, and answers how many bytes were written: all of it where there is room for 524,288.
pub fn answer(bytes: &[u8], out: &mut [u8]) -> usize
    ensures result_after { lent_paper out.new result ≡ typed (lent_paper out.old 0) (why_text bytes.now) }
    ensures bounds { result ≤ length out.new }
{
    tell_bytes(bytes, out)
}
