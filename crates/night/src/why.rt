// Why a tree is not sound, or that it is.
ghost use Rattle.std.specs.Prelude.{◌≡◌, ◌≤◌, length};
ghost use Rattle.slots.specs.Words.{most_names};
ghost use Rattle.index_rules.specs.Live.{lent_tree};
ghost use Rattle.night.specs.Shown.{sought, why_told};
ghost use Rattle.night.specs.Told.{account_of};
ghost use Rattle.night.specs.Whys.{why_of};

use crate::account::{Account, tells_slot};
use crate::header::{rule1, rule2};
use crate::search::{first_shown, lowest};
use crate::slot::shows1;
use index::fit::fit;
use slots::NULL;
use slots::answer::Unfit;

// The first broken rule and what shows it, of slices that fit.
fn explain(names: &[u64], cells: &[u32], head: &[u32], sizes: &[u32]) -> Account
    requires { length names.now ≤ most_names }
    ensures { account_of result ≡ sought (lent_tree names.now cells.now head.now sizes.now) }
{
    let n = names.len() / 2;
    if !rule1(names, cells, head) {
        let i = lowest(n as u32, |i| shows1(names, cells, i));
        return tells_slot(1, i.unwrap_or(NULL));
    }
    if !rule2(head) {
        return tells_slot(2, NULL);
    }
    first_shown(names, cells, head, sizes)
}

// The first broken rule among T1 to T8 and the lowest slot that shows it, or that the tree is sound. Unfit where the slices are not a live
// tree's.
pub fn why(names: &[u64], cells: &[u32], head: &[u32], sizes: &[u32]) -> Result<Account, Unfit>
    ensures { why_of result ≡ why_told (lent_tree names.now cells.now head.now sizes.now) }
{
    if !fit(names, cells, head, sizes) {
        return Err(Unfit);
    }
    Ok(explain(names, cells, head, sizes))
}
