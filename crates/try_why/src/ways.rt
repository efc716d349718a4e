// T6's ways, from a link down to a null link.
use crate::rows::{same, sum};
use slots::{BLACK, LEFT, NULL, RIGHT, STATE, get};

// The lesser of two numbers, or the greater.
fn either(a: u32, b: u32, greater: bool) -> u32 {
    if (a < b) == greater {
        return b;
    }
    a
}

// The least number of black slots that a way from the link down meets, or the greatest, over all of them.
pub fn met(cells: &[u32], link: u32, depth: u32, greatest: bool) -> u32 {
    if depth == 0 {
        return 0;
    }
    if link == NULL {
        return 0;
    }
    let a = met(cells, get(cells, link, LEFT), depth - 1, greatest);
    let b = met(cells, get(cells, link, RIGHT), depth - 1, greatest);
    sum(either(a, b, greatest), same(get(cells, link, STATE), BLACK))
}

// All ways from the link down meet equally many black slots.
pub fn is_even(cells: &[u32], link: u32) -> bool {
    met(cells, link, 8, false) == met(cells, link, 8, true)
}

// All ways below the left link of slot i meet equally many black slots, those below its right link too, and the two differ.
pub fn parts(cells: &[u32], i: u32) -> bool {
    let left = get(cells, i, LEFT);
    let right = get(cells, i, RIGHT);
    is_even(cells, left)
        && is_even(cells, right)
        && met(cells, left, 8, false) != met(cells, right, 8, false)
}

// Whether a way goes as it should.
#[derive(Clone, Copy, PartialEq, Eq)]
enum Going {
    NotYet,
    SoFar,
    Astray,
}

// A way as far as it has been gone: the link where it is, the sides to go on by as the bits of a number, the last slot and the side that it
// was left by, the black slots met, and whether it goes as it should.
// Form kept: a side is 0 or 1, since it is added to the field LEFT, and is one of the words that are told.
#[derive(Clone, Copy)]
struct Trail {
    at: u32,
    sides: u32,
    last: u32,
    side: u32,
    blacks: u32,
    goes: Going,
}

// Whether a trail goes as it should, by slot i and its side and from there on by left links, where slot at is left by a turn.
fn goes_on(goes: Going, at: u32, turn: u32, i: u32, side: u32) -> Going {
    if at == i && turn == side {
        return Going::SoFar;
    }
    if at == i {
        return Going::Astray;
    }
    if goes == Going::SoFar && turn == 1 {
        return Going::Astray;
    }
    goes
}

// A trail one slot further.
fn step(cells: &[u32], t: Trail, i: u32, side: u32) -> Trail {
    let turn = t.sides % 2;
    Trail {
        at: get(cells, t.at, LEFT + turn),
        sides: t.sides / 2,
        last: t.at,
        side: turn,
        blacks: sum(t.blacks, same(get(cells, t.at, STATE), BLACK)),
        goes: goes_on(t.goes, t.at, turn, i, side),
    }
}

// The trail from the root by sides, as far as it goes.
fn followed(cells: &[u32], root: u32, sides: u32, i: u32, side: u32) -> Trail {
    let mut t = Trail {
        at: root,
        sides,
        last: NULL,
        side: NULL,
        blacks: 0,
        goes: Going::NotYet,
    };
    for _ in 0..8 {
        if t.at == NULL {
            return t;
        }
        t = step(cells, t, i, side);
    }
    t
}

// Of all ways from the root the one by slot i and its side, and from there on by left links: its last slot, side, blacks.
pub fn way_by(cells: &[u32], root: u32, i: u32, side: u32) -> [u32; 3] {
    for sides in 0..256 {
        let t = followed(cells, root, sides, i, side);
        if t.goes == Going::SoFar {
            return [t.last, t.side, t.blacks];
        }
    }
    [NULL; 3]
}
