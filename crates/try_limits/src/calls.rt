// One call of the index, and how its answer is said.
use crate::pairs::hash_of;
use index::check::check;
use index::fresh::fresh;
use index::insert::insert;
use index::remove::remove;
use index::replace::replace;
use index::rollback::rollback;
use index::sound::sound;
use ranks::kth::kth;
use ranks::position::position;
use slots::answer::{Answer, Answers};
use std::io;
use std::io::Stdout;
use trials::print::{answer, verdict};

// A call of a pair is of the pair with that number.
#[derive(Clone, Copy)]
pub enum Call {
    Fresh,
    Insert(u32, u32), // a pair, with this place
    Replace(u32, u32), // a pair, by this place
    Remove(u32),
    Rollback(u32), // to this mark
    Sound,
    Check,
    Kth(u32),
    Position(u32),
}

// Makes a call.
pub fn make(
    call: Call,
    names: &mut [u64],
    cells: &mut [u32],
    head: &mut [u32],
    sizes: &mut [u32],
    lines: &mut [u64],
) -> Answer {
    match call {
        Call::Fresh => fresh(names, cells, head, sizes, lines).answer(),
        Call::Insert(k, place) => {
            let hash = hash_of(k);
            insert(names, cells, head, sizes, lines, hash, k as u64, place).answer()
        }
        Call::Replace(k, place) => {
            let hash = hash_of(k);
            replace(names, cells, head, sizes, lines, hash, k as u64, place).answer()
        }
        Call::Remove(k) => {
            remove(names, cells, head, sizes, lines, hash_of(k), k as u64).answer()
        }
        Call::Rollback(mark) => rollback(names, cells, head, sizes, lines, mark).answer(),
        Call::Sound => sound(names, cells, head, sizes).answer(),
        Call::Check => check(names, cells, head).answer(),
        Call::Kth(k) => kth(names, cells, head, sizes, k).answer(),
        Call::Position(k) => { position(names, cells, head, sizes, hash_of(k), k as u64).answer() }
    }
}

// What a call was answered, behind a label.
pub fn say_answer(stdout: Stdout, label: &[u8], call: Call, told: Answer) -> io::Result<()> {
    match call {
        Call::Remove(_) => answer(stdout, label, b"gone ", told),
        Call::Rollback(_) => answer(stdout, label, b"back ", told),
        Call::Sound => verdict(stdout, label, b"no ", told),
        Call::Check => answer(stdout, label, b"passes", told),
        Call::Position(_) => answer(stdout, label, b"", told),
        _ => answer(stdout, label, b"slot ", told),
    }
}
