// The lowest slot that shows a rule, and the first of T3 to T8 that a slot shows.
ghost use Rattle.std.specs.Prelude.{◌≡◌, Bool, ℕ, ◌<◌, ◌≤◌, IfSome, length, unwrap_or};
ghost use Rattle.night_rules.specs.Why.{lowest_with};
ghost use Rattle.slots.specs.Words.{null, most_names};
ghost use Rattle.index_rules.specs.Live.{lent_tree};
ghost use Rattle.night.specs.Shown.{from_t3};
ghost use Rattle.night.specs.Told.{account_of};

use crate::account::{Account, tells_pair, tells_slot, tells_ways};
use crate::slot::{shows3, shows4, shows5, shows6, shows7, shows8};
use crate::ways::{by_left, by_right, next_slot};
use slots::NULL;

// The lowest of the n slots that passes the test, if one does.
pub(crate) fn lowest<F: Fn(u32) -> bool>(n: u32, shows: F) -> Option<u32>
    requires { F.IsAlwaysCallable shows }
    ensures lowest { (f : ℕ → Bool) → ((i : ℕ) → i < n → (b : Bool) → F.post shows i b → b ≡ f i)
        → unwrap_or result null ≡ lowest_with n f 0 }
    ensures inside { IfSome result (λ i. i < null) }
{
    for i in 0..n {
        if shows(i) {
            return Some(i);
        }
    }
    None
}

// The first of T3 to T8 that a slot shows, and what is told with the lowest such slot; or that none does.
pub(crate) fn first_shown(names: &[u64], cells: &[u32], head: &[u32], sizes: &[u32]) -> Account
    requires { length names.now ≤ most_names }
    ensures { account_of result ≡ from_t3 (lent_tree names.now cells.now head.now sizes.now) }
{
    let slots = names.len() / 2;
    let n = slots as u32;
    if let Some(three) = lowest(n, |i| shows3(names, cells, head, i)) {
        return tells_slot(3, three);
    }
    if let Some(four) = lowest(n, |i| shows4(names, cells, i)) {
        return tells_pair(four, next_slot(slots, cells, four));
    }
    if let Some(five) = lowest(n, |i| shows5(cells, head, i)) {
        return tells_slot(5, five);
    }
    if let Some(six) = lowest(n, |i| shows6(names, cells, i)) {
        return tells_ways(six, by_left(slots, cells, six), by_right(slots, cells, six));
    }
    if let Some(seven) = lowest(n, |i| shows7(names, cells, head, i)) {
        return tells_slot(7, seven);
    }
    if let Some(eight) = lowest(n, |i| shows8(names, cells, sizes, i)) {
        return tells_slot(8, eight);
    }
    tells_slot(0, NULL)
}
