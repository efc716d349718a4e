// A file loaded in three chunks, and what came of it.
use crate::room::Room;
use file::load::Load;
use file::loader::Loader;
use slots::answer::{Answers, answer_word};

// What came of a file: the word of the answer, whether all is right, the loader's words but its note, and the slices.
#[derive(Clone, Copy, PartialEq)]
pub struct Loaded {
    pub said: u64,
    pub right: bool,
    loader: [u64; 7],
    room: Room,
}

// The bytes from i to before j as one chunk; an empty one where these are not in their order within the bytes.
fn take_part(loader: Loader, room: &mut Room, bytes: &[u8], i: usize, j: usize) -> Load {
    room.chunk(loader, bytes.get(i..j).unwrap_or(&[]))
}

// The file in three chunks, cut at i and j, and the end call.
fn load_cut(room: &mut Room, bytes: &[u8], i: usize, j: usize) -> Load {
    let first = take_part(Loader::start().loader, room, bytes, 0, i);
    let second = take_part(first.loader, room, bytes, i, j);
    let third = take_part(second.loader, room, bytes, j, bytes.len());
    room.end(third.loader)
}

// The word of what a call answered.
fn said(load: Load) -> u64 {
    answer_word(load.reply.answer())
}

// Whether a byte more and another end call give the answer again.
fn repeats(load: Load, room: &mut Room) -> bool {
    let later = room.chunk(load.loader, b"\x02");
    let ended = room.end(later.loader);
    said(later) == said(load) && said(ended) == said(load)
}

// A refusal leaves zeros; an accepted file leaves zeros behind a set that saves to its bytes, and their number is the answer.
fn is_right(load: Load, room: &Room, bytes: &[u8]) -> bool {
    let r = load.loader;
    match load.reply {
        Ok(n) => {
            n as usize == bytes.len()
                && room.is_clean(r.tables, r.words, r.headers, r.slots)
                && room.saves_to(r, bytes)
        }
        Err(_) => room.is_clean(0, 0, 0, 0),
    }
}

// What came of a file that is cut at i and j, in slices that had other words before.
pub fn outcome(bytes: &[u8], i: usize, j: usize) -> Loaded {
    let mut room = Room::used();
    let load = load_cut(&mut room, bytes, i, j);
    let again = repeats(load, &mut room);
    let r = load.loader;
    Loaded {
        said: said(load),
        right: again && is_right(load, &room, bytes),
        loader: [
            r.section, r.at, r.part, r.tables, r.words, r.headers, r.slots,
        ],
        room,
    }
}
