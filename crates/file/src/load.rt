// start, chunk and end: the loader goes in by value and comes back.
ghost use Rattle.std.specs.Prelude.{◌≡◌, []};
ghost use Rattle.set_rules.specs.Words.{lent_set};
ghost use Rattle.set_rules.specs.Accepting.{accepts};
ghost use Rattle.sets.specs.Verdicts.{accept_of};
ghost use Rattle.file_rules.specs.Loader.{FitLoader, RoomFor, new_loader};
ghost use Rattle.file_rules.specs.Loading.{loading, bytes_loaded, cut_out, end_judged, GoesOn, may_go_on};
ghost use Rattle.file_rules.specs.Loading.{load_start, load_chunk, load_end};
ghost use Rattle.file.specs.Meanings.{loader_words, loaded_of};

use crate::clear::{clear_rests, refuse};
use crate::loader::{Loader, fits_loader, note_in, reply_of, taken_of};
use crate::reply::{LoadRefusal, LoadReply};
use crate::room::has_room;
use crate::runs::step;
use sets::accept::accept;
use slots::answer::Unfit;

// What a call answers, and the loader after it.
#[derive(Clone, Copy)]
pub struct Load {
    pub reply: LoadReply,
    pub loader: Loader,
}

// Acceptance of the set that the counts cut out of the slices.
fn judge(
    lengths: &[u32],
    bins: &[u32],
    heads: &[u32],
    names: &[u64],
    cells: &[u32],
    r: Loader,
) -> Result<bool, Unfit>
    requires { FitLoader (loader_words r) × RoomFor (loader_words r)
        (lent_set lengths.now bins.now heads.now names.now cells.now) }
    ensures { accept_of result
        ≡ accepts (cut_out (loader_words r)
        (lent_set lengths.now bins.now heads.now names.now cells.now)) }
{
    let tables = r.tables as usize;
    let words = r.words as usize;
    let headers = r.headers as usize;
    let slots = r.slots as usize;
    accept(
        &lengths[..tables],
        &bins[..words],
        &heads[..3 * headers],
        &names[..2 * slots],
        &cells[..7 * slots],
    )
}

// The end of the bytes, nothing being noted.
fn judge_end(
    lengths: &mut [u32],
    bins: &mut [u32],
    heads: &mut [u32],
    names: &mut [u64],
    cells: &mut [u32],
    r: Loader,
) -> Loader
    requires { FitLoader (loader_words r) × RoomFor (loader_words r)
        (lent_set lengths.old bins.old heads.old names.old cells.old) }
    ensures { loading (loader_words result)
        (lent_set lengths.new bins.new heads.new names.new cells.new)
        ≡ end_judged (loader_words r)
        (lent_set lengths.old bins.old heads.old names.old cells.old) }
{
    if r.section != 4 {
        return refuse(lengths, bins, heads, names, cells, r, LoadRefusal::Short);
    }
    match judge(lengths, bins, heads, names, cells, r) {
        Ok(true) => {
            clear_rests(lengths, bins, heads, names, cells, r);
            let bytes = taken_of(r);
            note_in(r, Ok(bytes))
        }
        Ok(false) => refuse(lengths, bins, heads, names, cells, r, LoadRefusal::Damaged),
        Err(Unfit) => refuse(lengths, bins, heads, names, cells, r, LoadRefusal::Unfit),
    }
}

// Whether the loader is in range and, where nothing is noted, the slices hold what was counted.
pub fn may_go_on(
    lengths: &[u32],
    bins: &[u32],
    heads: &[u32],
    names: &[u64],
    cells: &[u32],
    r: Loader,
) -> bool
    ensures { result
        ≡ may_go_on (loading (loader_words r)
        (lent_set lengths.now bins.now heads.now names.now cells.now)) }
{
    let fits = fits_loader(r);
    if !fits {
        return false;
    }
    if r.note.is_some() {
        return true;
    }
    has_room(lengths, bins, heads, names, cells, r)
}

// The bytes of a chunk one after another.
fn take_all(
    lengths: &mut [u32],
    bins: &mut [u32],
    heads: &mut [u32],
    names: &mut [u64],
    cells: &mut [u32],
    r: Loader,
    chunk: &[u8],
) -> Loader
    requires { GoesOn (loading (loader_words r) (lent_set lengths.old bins.old heads.old names.old cells.old)) }
    ensures { (loading (loader_words result)
        (lent_set lengths.new bins.new heads.new names.new cells.new)
        ≡ bytes_loaded (loading (loader_words r)
        (lent_set lengths.old bins.old heads.old names.old cells.old))
        chunk.now)
        × FitLoader (loader_words result) }
{
    let mut loader = r;
    let mut rest = chunk;
    while !rest.is_empty() {
        let next = step(lengths, bins, heads, names, cells, loader, rest);
        loader = next.loader;
        rest = &rest[next.used..];
    }
    loader
}

impl Loader {
    // Begins a file: the loader of a start.
    pub fn start() -> Load
        ensures { loaded_of result (lent_set [] [] [] [] []) ≡ load_start (loading new_loader (lent_set [] [] [] [] [])) }
    {
        let loader = Loader {
            section: 0,
            at: 0,
            part: 0,
            tables: 0,
            words: 0,
            headers: 0,
            slots: 0,
            note: None,
        };
        Load {
            reply: Ok(1),
            loader,
        }
    }

    // The next bytes of the file.
    pub fn chunk(
        self,
        lengths: &mut [u32],
        bins: &mut [u32],
        heads: &mut [u32],
        names: &mut [u64],
        cells: &mut [u32],
        chunk: &[u8],
    ) -> Load
        ensures { loaded_of result
            (lent_set lengths.new bins.new heads.new names.new cells.new)
            ≡ load_chunk (loading (loader_words self)
            (lent_set lengths.old bins.old heads.old names.old cells.old))
            chunk.now }
    {
        let may = may_go_on(lengths, bins, heads, names, cells, self);
        if !may {
            return Load {
                reply: Err(LoadRefusal::Unfit),
                loader: self,
            };
        }
        let loader = take_all(lengths, bins, heads, names, cells, self, chunk);
        let reply = reply_of(loader);
        Load { reply, loader }
    }

    // The file has ended.
    pub fn end(
        self,
        lengths: &mut [u32],
        bins: &mut [u32],
        heads: &mut [u32],
        names: &mut [u64],
        cells: &mut [u32],
    ) -> Load
        ensures { loaded_of result
            (lent_set lengths.new bins.new heads.new names.new cells.new)
            ≡ load_end (loading (loader_words self)
            (lent_set lengths.old bins.old heads.old names.old cells.old)) }
    {
        let may = may_go_on(lengths, bins, heads, names, cells, self);
        if !may {
            return Load {
                reply: Err(LoadRefusal::Unfit),
                loader: self,
            };
        }
        if let Some(reply) = self.note {
            return Load {
                reply,
                loader: self,
            };
        }
        let loader = judge_end(lengths, bins, heads, names, cells, self);
        let reply = reply_of(loader);
        Load { reply, loader }
    }
}
