// What lies below a link, at most so deep. What calls these asks them of trees, whose ways end and do not meet again.
ghost use Rattle.std.specs.Prelude.{◌≡◌};
ghost use Rattle.tree_rules.specs.Rules.{levelled};
ghost use Rattle.night_rules.specs.Why.{number_below};
ghost use Rattle.slots.specs.Coded.{value_of};
ghost use Rattle.night.specs.Told.{held_number};

use slots::{LEFT, NULL, RIGHT, get, is_red};

// The black slots that every way from the link i down meets; None where not every way meets as many.
pub(crate) fn blacks_below(cells: &[u32], i: u32, depth: usize) -> Option<usize>
    ensures { value_of result ≡ levelled depth cells.now i }
{
    if i == NULL {
        return Some(0);
    }
    if depth == 0 {
        return None;
    }
    let a = blacks_below(cells, get(cells, i, LEFT), depth - 1)?;
    let b = blacks_below(cells, get(cells, i, RIGHT), depth - 1)?;
    if a != b {
        return None;
    }
    if is_red(cells, i) {
        return Some(a);
    }
    Some(a + 1)
}

// A number, held at 2^32, which is above any size that is stored.
#[tactic(auto, unfolding(crate::specs::Told::held_number))]
fn held(x: u64) -> u64
    ensures { result ≡ held_number x }
{
    x.min(4294967296)
}

// The number of slots from the link i down, so held.
pub(crate) fn number_below(cells: &[u32], i: u32, depth: usize) -> u64
    ensures { result ≡ held_number (number_below depth cells.now i) }
{
    if depth == 0 {
        return 0;
    }
    if i == NULL {
        return 0;
    }
    let a = number_below(cells, get(cells, i, LEFT), depth - 1);
    let b = number_below(cells, get(cells, i, RIGHT), depth - 1);
    held(1 + a + b)
}
