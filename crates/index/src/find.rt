// find: the slot that has a pair.
ghost use Rattle.std.specs.Prelude.{◌≡◌};
ghost use Rattle.tree_rules.specs.Find.{counted as countedLooks};
ghost use Rattle.index_rules.specs.Live.{unsized};
ghost use Rattle.index_rules.specs.Find.{finds};
ghost use Rattle.index.specs.Reads.{found_of};

use crate::fit::fit_unsized;
use slots::answer::Unfit;
use slots::{NULL, ROOT, word};
use tree::find::{Found, find_tree_node};

// The slot that has the pair (hash, key), by the source's search (docs/RULES.md, section 3), and how many slots it looked at.
pub fn find(
    names: &[u64],
    cells: &[u32],
    head: &[u32],
    hash: u64,
    key: u64,
) -> Result<Found<u32>, Unfit>
    ensures { found_of result ≡ countedLooks (finds (unsized names.now cells.now head.now) hash key) }
{
    if !fit_unsized(names, cells, head) {
        return Err(Unfit);
    }
    let root = word(head, ROOT, NULL);
    let found = find_tree_node(names, cells, root, hash, key);
    Ok(found.in_a_word())
}
