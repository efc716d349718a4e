// check: the source's own check of a live tree. Passing it is not soundness.
ghost use Rattle.std.specs.Prelude.{◌≡◌};
ghost use Rattle.index_rules.specs.Live.{unsized};
ghost use Rattle.index_rules.specs.Check.{checks};
ghost use Rattle.index.specs.Reads.{checked_of};

use crate::fit::fit_unsized;
use slots::answer::Unfit;
use slots::{NULL, ROOT, word};
use tree::check::{Fault, check_invariants};

// The source's own check of a live tree (docs/RULES.md, section 6): its fault, if it has one.
#[tactic(auto, unfolding(index_rules::specs::Check::checks))]
pub fn check(names: &[u64], cells: &[u32], head: &[u32]) -> Result<Option<Fault>, Unfit>
    ensures { checked_of result ≡ checks (unsized names.now cells.now head.now) }
{
    if !fit_unsized(names, cells, head) {
        return Err(Unfit);
    }
    let root = word(head, ROOT, NULL);
    Ok(check_invariants(names, cells, root))
}
