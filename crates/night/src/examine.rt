// What is found of a tree: what is told of it, with how the rule is broken.
ghost use Rattle.std.specs.Prelude.{◌≡◌};
ghost use Rattle.index_rules.specs.Live.{lent_tree};
ghost use Rattle.night_rules.specs.Finding.{examined};
ghost use Rattle.night.specs.Found.{finding_of};

use crate::account::Account;
use crate::breach::{Breach, broken_by};
use crate::why::why;
use slots::answer::Unfit;

// The first broken rule with what shows it and how it is broken there, None where the tree is sound. Unfit where the slices are not a live
// tree's.
pub fn examine(
    names: &[u64],
    cells: &[u32],
    head: &[u32],
    sizes: &[u32],
) -> Result<Option<(Account, Breach)>, Unfit>
    ensures { finding_of result
        ≡ examined (lent_tree names.now cells.now head.now sizes.now) }
{
    let account = why(names, cells, head, sizes)?;
    if account.rule == 0 {
        return Ok(None);
    }
    let breach = broken_by(names, cells, head, sizes, account);
    Ok(Some((account, breach)))
}
