// What the bytes of an input do: those of a length, those of a set, and a set's end.
ghost use Rattle.std.specs.Prelude.{◌≡◌, true, ◌<◌, ◌≤◌, min, length, eqb};
ghost use Rattle.slots.specs.Words.{pick};
ghost use Rattle.set_rules.specs.Words.{lent_set};
ghost use Rattle.file_rules.specs.Loading.{loading, cut_out, GoesOn};
ghost use Rattle.file.specs.Meanings.{loader_words, loaded_of};
ghost use Rattle.figure_rules.specs.Stream.{no_set, set_to_tally, figures, with_set, set_ends, awaits, length_byte};
ghost use Rattle.figure_rules.specs.Pieces.{FitStream};
ghost use Rattle.tally.specs.Replies.{tally_of};
ghost use Rattle.tally.specs.Meanings.{stream_of};
ghost use Rattle.tally.specs.Steps.{StreamStep};

use crate::stream::{Stream, with_byte};
use crate::tally::{TallyRefusal, tally};
use file::cut::{front_cells, front_heads, front_names, front_words};
use file::load::Load;
use file::loader::Loader;

// Whether a set came after a million: it did before, or the tally says so.
fn over_after(reply: Result<bool, TallyRefusal>, over: bool) -> bool
    ensures { result ≡ pick (eqb (tally_of reply).number 17) true over }
{
    match reply {
        Err(TallyRefusal::TooMany) => true,
        Err(TallyRefusal::Unfit) | Ok(_) => over,
    }
}

// A set that was refused or cut short: "tallied as five empty slices".
pub(crate) fn tally_none(totals: &mut [u64], over: bool) -> bool
    ensures { figures totals.new result ≡ with_set (figures totals.old over) no_set }
{
    let nothing: [u32; 0] = [];
    let nameless: [u64; 0] = [];
    let reply = tally(&nothing, &nothing, &nothing, &nameless, &nothing, totals);
    over_after(reply, over)
}

// The set that the counts cut out of the slices.
// Form kept: five cuts here and in listing, since a routine for both would hand out five slices at once.
fn tally_cut(
    r: Loader,
    lengths: &[u32],
    bins: &[u32],
    heads: &[u32],
    names: &[u64],
    cells: &[u32],
    totals: &mut [u64],
    over: bool,
) -> bool
    ensures { figures totals.new result
        ≡ with_set (figures totals.old over)
        (cut_out (loader_words r)
        (lent_set lengths.now bins.now heads.now names.now cells.now)) }
{
    let tables = front_words(lengths, r.tables);
    let words = front_words(bins, r.words);
    let headers = front_heads(heads, r.headers);
    let named = front_names(names, r.slots);
    let linked = front_cells(cells, r.slots);
    let reply = tally(tables, words, headers, named, linked, totals);
    over_after(reply, over)
}

// The set that the end call of the loader leaves.
fn tally_load(
    load: Load,
    lengths: &[u32],
    bins: &[u32],
    heads: &[u32],
    names: &[u64],
    cells: &[u32],
    totals: &mut [u64],
    over: bool,
) -> bool
    ensures { figures totals.new result
        ≡ with_set (figures totals.old over)
        (set_to_tally (loaded_of load
        (lent_set lengths.now bins.now heads.now names.now cells.now))) }
{
    if load.reply.is_err() {
        return tally_none(totals, over);
    }
    tally_cut(
        load.loader,
        lengths,
        bins,
        heads,
        names,
        cells,
        totals,
        over,
    )
}

// The end of a set's bytes: the loader's end call, and the tally.
fn set_ends(
    loader: Loader,
    lengths: &mut [u32],
    bins: &mut [u32],
    heads: &mut [u32],
    names: &mut [u64],
    cells: &mut [u32],
    totals: &mut [u64],
    over: bool,
) -> Stream
    requires { GoesOn (loading (loader_words loader) (lent_set lengths.old bins.old heads.old names.old cells.old)) }
    ensures { stream_of result
        (lent_set lengths.new bins.new heads.new names.new cells.new)
        totals.new
        ≡ set_ends (loading (loader_words loader)
        (lent_set lengths.old bins.old heads.old names.old cells.old))
        (figures totals.old over) }
{
    let load = loader.end(lengths, bins, heads, names, cells);
    let over = tally_load(load, lengths, bins, heads, names, cells, totals, over);
    let loader = load.loader;
    Stream {
        got: 0,
        left: 0,
        loader,
        over,
    }
}

// So many bytes of the set are to come.
fn await_set(
    left: u64,
    loader: Loader,
    lengths: &mut [u32],
    bins: &mut [u32],
    heads: &mut [u32],
    names: &mut [u64],
    cells: &mut [u32],
    totals: &mut [u64],
    over: bool,
) -> Stream
    requires { GoesOn (loading (loader_words loader) (lent_set lengths.old bins.old heads.old names.old cells.old)) }
    ensures { stream_of result
        (lent_set lengths.new bins.new heads.new names.new cells.new)
        totals.new
        ≡ awaits left
        (loading (loader_words loader)
        (lent_set lengths.old bins.old heads.old names.old cells.old))
        (figures totals.old over) }
{
    if left == 0 {
        return set_ends(loader, lengths, bins, heads, names, cells, totals, over);
    }
    Stream {
        got: 4,
        left,
        loader,
        over,
    }
}

// A byte of the length; after the fourth the loader starts.
fn length_byte(
    r: Stream,
    lengths: &mut [u32],
    bins: &mut [u32],
    heads: &mut [u32],
    names: &mut [u64],
    cells: &mut [u32],
    totals: &mut [u64],
    byte: u8,
) -> Stream
    requires { (r.got < 4)
        × FitStream (stream_of r (lent_set lengths.old bins.old heads.old names.old cells.old) totals.old) }
    ensures { stream_of result
        (lent_set lengths.new bins.new heads.new names.new cells.new)
        totals.new
        ≡ length_byte (stream_of r
        (lent_set lengths.old bins.old heads.old names.old cells.old)
        totals.old) byte }
{
    let left = with_byte(r.got, r.left, byte);
    if r.got == 3 {
        let started = Loader::start();
        return await_set(
            left,
            started.loader,
            lengths,
            bins,
            heads,
            names,
            cells,
            totals,
            r.over,
        );
    }
    let loader = r.loader;
    Stream {
        got: r.got + 1,
        left,
        loader,
        over: r.over,
    }
}

// So many bytes of the rest are the set's.
fn own_bytes(left: u64, rest: &[u8]) -> usize
    ensures { result ≡ min left (length rest.now) }
{
    left.min(rest.len() as u64) as usize
}

// The stream after some bytes, and how many they are.
// Form kept: as in the loader, whose Taking has a loader where this has a stream.
#[derive(Clone, Copy)]
pub(crate) struct Taking {
    pub stream: Stream,
    pub used: usize,
}

// Bytes of the set, all of them that the rest has.
fn set_bytes(
    r: Stream,
    lengths: &mut [u32],
    bins: &mut [u32],
    heads: &mut [u32],
    names: &mut [u64],
    cells: &mut [u32],
    totals: &mut [u64],
    rest: &[u8],
) -> Taking
    requires { (r.got ≡ 4)
        × (1 ≤ length rest.now)
        × FitStream (stream_of r (lent_set lengths.old bins.old heads.old names.old cells.old) totals.old) }
    ensures { StreamStep
        (stream_of r
        (lent_set lengths.old bins.old heads.old names.old cells.old)
        totals.old)
        rest.now result.used
        (stream_of result.stream
        (lent_set lengths.new bins.new heads.new names.new cells.new)
        totals.new) }
{
    let used = own_bytes(r.left, rest);
    let loader = r.loader;
    let load = loader.chunk(lengths, bins, heads, names, cells, &rest[..used]);
    let stream = await_set(
        r.left - used as u64,
        load.loader,
        lengths,
        bins,
        heads,
        names,
        cells,
        totals,
        r.over,
    );
    Taking { stream, used }
}

// The next bytes of a piece: those of a set, or one of a length.
pub(crate) fn step(
    r: Stream,
    lengths: &mut [u32],
    bins: &mut [u32],
    heads: &mut [u32],
    names: &mut [u64],
    cells: &mut [u32],
    totals: &mut [u64],
    rest: &[u8],
) -> Taking
    requires { (1 ≤ length rest.now)
        × FitStream (stream_of r (lent_set lengths.old bins.old heads.old names.old cells.old) totals.old) }
    ensures { StreamStep
        (stream_of r
        (lent_set lengths.old bins.old heads.old names.old cells.old)
        totals.old)
        rest.now result.used
        (stream_of result.stream
        (lent_set lengths.new bins.new heads.new names.new cells.new)
        totals.new) }
{
    if r.got == 4 {
        return set_bytes(r, lengths, bins, heads, names, cells, totals, rest);
    }
    let stream = length_byte(r, lengths, bins, heads, names, cells, totals, rest[0]);
    Taking { stream, used: 1 }
}
