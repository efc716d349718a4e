// The ways that follow one field from slot to slot. Each ends on any words: it takes at most so many steps.
ghost use Rattle.std.specs.Prelude.{◌≡◌, ◌+◌, ◌≤◌};
ghost use Rattle.night_rules.specs.Why.{leads_to, first_below, next_above, next_slot, one_if_black, blacks_above, way_on};
ghost use Rattle.slots.specs.Words.{leftward, rightward, most_slots};
ghost use Rattle.night.specs.Shown.{way_from};
ghost use Rattle.night.specs.Told.{way_of};

use crate::account::WayDown;
use slots::{BLACK, LEFT, NULL, PARENT, RIGHT, STATE, get};

// The field f, followed from k, leads to x in at most n steps.
pub(crate) fn leads_to(n: usize, cells: &[u32], f: u32, x: u32, k: u32) -> bool
    ensures { result ≡ leads_to n cells.now f x k }
{
    let mut at = k;
    for _ in 0..n {
        if at == x {
            return true;
        }
        at = get(cells, at, f);
    }
    at == x
}

// The first slot in order below the link i.
pub(crate) fn first_below(n: usize, cells: &[u32], i: u32) -> u32
    ensures { result ≡ first_below n cells.now i }
{
    let mut at = i;
    for _ in 0..n {
        let l = get(cells, at, LEFT);
        if l == NULL {
            return at;
        }
        at = l;
    }
    at
}

// The first slot above i that has the way up on its left, null where there is none.
// Form kept: null and no Option, since the clause equates the result with the rules' next_above, which is a link.
pub(crate) fn next_above(n: usize, cells: &[u32], i: u32) -> u32
    ensures { result ≡ next_above n cells.now i }
{
    let mut at = i;
    for _ in 0..n {
        let p = get(cells, at, PARENT);
        if p == NULL {
            return NULL;
        }
        if get(cells, p, LEFT) == at {
            return p;
        }
        at = p;
    }
    NULL
}

// The slot next in order, null where there is none.
// Form kept: null and no Option, since the clause equates the result with the rules' next_slot, which is a link.
#[tactic(auto, unfolding(night_rules::specs::Why::next_slot))]
pub(crate) fn next_slot(n: usize, cells: &[u32], i: u32) -> u32
    ensures { result ≡ next_slot n cells.now i }
{
    let r = get(cells, i, RIGHT);
    if r == NULL {
        return next_above(n, cells, i);
    }
    first_below(n, cells, r)
}

// 1 for a black slot, 0 for another.
#[tactic(auto, unfolding(night_rules::specs::Why::one_if_black))]
pub(crate) fn one_if_black(cells: &[u32], i: u32) -> u32
    ensures { result ≡ one_if_black cells.now i }
{
    (get(cells, i, STATE) == BLACK) as u32
}

// The black slots above i, by its parents.
pub(crate) fn blacks_above(n: usize, cells: &[u32], i: u32) -> usize
    ensures { result ≡ blacks_above n cells.now i }
{
    let mut at = i;
    let mut m = 0;
    for _ in 0..n {
        let p = get(cells, at, PARENT);
        if p == NULL {
            return m;
        }
        m += one_if_black(cells, p) as usize;
        at = p;
    }
    m
}

// From slot p by left links, with k black slots met so far.
fn lefts(n: usize, cells: &[u32], p: u32, k: usize) -> WayDown
    requires { k + n ≤ 4294967295 }
    ensures { way_of result ≡ way_on n cells.now p leftward k }
{
    let mut at = p;
    let mut m = k;
    for _ in 0..n {
        let q = get(cells, at, LEFT);
        if q == NULL {
            break;
        }
        m += one_if_black(cells, q) as usize;
        at = q;
    }
    WayDown {
        last: at,
        side: 0,
        blacks: m as u32,
    }
}

// The black slots from the root to slot i.
fn blacks_to(n: usize, cells: &[u32], i: u32) -> usize
    requires { n ≤ most_slots }
    ensures { result ≡ blacks_above n cells.now i + one_if_black cells.now i }
{
    let above = blacks_above(n, cells, i);
    let one = one_if_black(cells, i);
    above + one as usize
}

// The way by slot i and its left link.
pub(crate) fn by_left(n: usize, cells: &[u32], i: u32) -> WayDown
    requires { n ≤ most_slots }
    ensures { way_of result ≡ way_from n cells.now i leftward }
{
    let k = blacks_to(n, cells, i);
    lefts(n, cells, i, k)
}

// The way by slot i and its right link.
pub(crate) fn by_right(n: usize, cells: &[u32], i: u32) -> WayDown
    requires { n ≤ most_slots }
    ensures { way_of result ≡ way_from n cells.now i rightward }
{
    let k = blacks_to(n, cells, i);
    let q = get(cells, i, RIGHT);
    if n == 0 || q == NULL {
        return WayDown {
            last: i,
            side: 1,
            blacks: k as u32,
        };
    }
    let one = one_if_black(cells, q);
    lefts(n - 1, cells, q, k + one as usize)
}
