// What one byte does to the reader and the index.
ghost use Rattle.std.specs.Prelude.{◌≡◌, IfSome, ◌+◌, ◌≤◌, ltb};
ghost use Rattle.slots.specs.Words.{null, pick};
ghost use Rattle.index_rules.specs.Index.{lent, length_of};
ghost use Rattle.upload_rules.specs.Reader.{FitReader};
ghost use Rattle.upload_rules.specs.Reading.{session, turned_down, kind_came, last_came, byte_came};
ghost use Rattle.reader.specs.Meanings.{words_of, read_refusal_of};
ghost use Rattle.index_rules.specs.Checked.{Ready};
ghost use Rattle.reader.specs.Trusting.{Stepped};

use crate::bytes::{name_byte, owe, take_count, take_entry};
use crate::enter::{back_to, enter};
use crate::reply::{ReadRefusal, after_rollback};
use crate::words::{Reader, noting, unsaid};
use index::journal::length_of;
use slots::NULL;

// A reader amid a chunk, and a slot below which none is free, where the check has said yes in it.
#[derive(Clone, Copy)]
pub(crate) struct Reading {
    pub reader: Reader,
    pub floor: Option<u32>,
}

// The mark that a refusal is rolled back to: that of the start. Where the journal is shorter than mark + taken somebody else has cut it,
// and it is a mark above every length, so that the rollback is refused.
fn back_mark(lines: &[u64], r: Reader) -> u32
    ensures { result ≡ pick (ltb (length_of lines.now) (r.mark + r.taken)) null r.mark }
{
    let length = length_of(lines);
    let mark = r.mark as u64;
    if length < mark {
        return NULL;
    }
    if length - mark < r.taken {
        return NULL;
    }
    r.mark
}

// A refusal: the tree is rolled back to the mark of the start, and the answer noted.
pub(crate) fn turn_down(
    names: &mut [u64],
    cells: &mut [u32],
    head: &mut [u32],
    sizes: &mut [u32],
    lines: &mut [u64],
    r: Reader,
    floor: Option<u32>,
    refusal: ReadRefusal,
) -> Reader
    requires { IfSome floor (λ f. Ready (lent names.old cells.old head.old sizes.old lines.old) f) }
    ensures { session (words_of result)
        (lent names.new cells.new head.new sizes.new lines.new)
        ≡ turned_down (words_of r)
        (lent names.old cells.old head.old sizes.old lines.old)
        (read_refusal_of refusal) }
{
    let mark = back_mark(lines, r);
    let back = back_to(names, cells, head, sizes, lines, floor, mark);
    noting(r, Err(after_rollback(refusal, back)))
}

// The kind byte.
#[tactic(auto, unfolding(upload_rules::specs::Reading::kind_came))]
fn take_kind(
    names: &mut [u64],
    cells: &mut [u32],
    head: &mut [u32],
    sizes: &mut [u32],
    lines: &mut [u64],
    at: Reading,
    b: u8,
) -> Reading
    requires section_bound { at.reader.section ≤ 4 }
    requires ready { IfSome at.floor (λ f. Ready (lent names.old cells.old head.old sizes.old lines.old) f) }
    ensures { Stepped
        (kind_came (words_of at.reader)
        (lent names.old cells.old head.old sizes.old lines.old) b)
        (words_of result.reader) result.floor
        (lent names.new cells.new head.new sizes.new lines.new) }
{
    let r = at.reader;
    if b as u64 == r.section + 1 {
        let reader = unsaid(r.section, 1, 0, 0, 0, r.mark, r.taken);
        return Reading { reader, ..at };
    }
    let reader = turn_down(
        names,
        cells,
        head,
        sizes,
        lines,
        r,
        at.floor,
        ReadRefusal::WrongKind,
    );
    Reading {
        reader,
        floor: None,
    }
}

// An entry's last byte: the insert. Where the check says no, a rollback on the same words answers what the insert does, so none is made.
fn take_last(
    names: &mut [u64],
    cells: &mut [u32],
    head: &mut [u32],
    sizes: &mut [u32],
    lines: &mut [u64],
    at: Reading,
    b: u8,
) -> Reading
    requires fit_reader { FitReader (words_of at.reader) }
    requires le_got { 3 ≤ at.reader.got }
    requires ready { IfSome at.floor (λ f. Ready (lent names.old cells.old head.old sizes.old lines.old) f) }
    ensures { Stepped
        (last_came (words_of at.reader)
        (lent names.old cells.old head.old sizes.old lines.old) b)
        (words_of result.reader) result.floor
        (lent names.new cells.new head.new sizes.new lines.new) }
{
    let r = at.reader;
    let key = name_byte(r.key, b);
    let place = 3 * r.section + 3 + 16 * r.taken;
    let entered = enter(
        names,
        cells,
        head,
        sizes,
        lines,
        at.floor,
        r.hash,
        key,
        place as u32,
    );
    match entered.inserted {
        Ok(_) => Reading {
            reader: owe(r, r.owed - 1, r.taken + 1),
            floor: entered.floor,
        },
        Err(refusal) => {
            let reader = match entered.floor {
                Some(_) => turn_down(
                    names,
                    cells,
                    head,
                    sizes,
                    lines,
                    r,
                    entered.floor,
                    refusal.into(),
                ),
                None => noting(r, Err(refusal.into())),
            };
            Reading {
                reader,
                floor: None,
            }
        }
    }
}

// A byte, nothing being noted.
#[tactic(auto, unfolding(upload_rules::specs::Reading::byte_came))]
pub(crate) fn take(
    names: &mut [u64],
    cells: &mut [u32],
    head: &mut [u32],
    sizes: &mut [u32],
    lines: &mut [u64],
    at: Reading,
    b: u8,
) -> Reading
    requires fit_reader { FitReader (words_of at.reader) }
    requires ready { IfSome at.floor (λ f. Ready (lent names.old cells.old head.old sizes.old lines.old) f) }
    ensures { Stepped
        (byte_came (words_of at.reader)
        (lent names.old cells.old head.old sizes.old lines.old) b)
        (words_of result.reader) result.floor
        (lent names.new cells.new head.new sizes.new lines.new) }
{
    let r = at.reader;
    if r.section == 4 {
        let long = ReadRefusal::Long;
        let reader = turn_down(names, cells, head, sizes, lines, r, at.floor, long);
        return Reading {
            reader,
            floor: None,
        };
    }
    if r.got == 0 {
        return take_kind(names, cells, head, sizes, lines, at, b);
    }
    if r.got < 3 {
        let reader = take_count(r, b);
        return Reading { reader, ..at };
    }
    if r.got < 18 {
        let reader = take_entry(r, b);
        return Reading { reader, ..at };
    }
    take_last(names, cells, head, sizes, lines, at, b)
}
