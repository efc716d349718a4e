// The chain of a tree: its slots from first by next, prev the reverse.
ghost use Rattle.std.specs.Prelude.{◌≡◌};
ghost use Rattle.slots.specs.Words.{null};
ghost use Rattle.tree_rules.specs.Chain.{chained};
ghost use Rattle.tree.specs.Rules.{rest_of};

use slots::{NEXT, NULL, PREV, get};

// The visits left of n, one a slot, after the chain from first; or none where prev does not
// lead back, or the chain does not end.
pub fn chain(n: usize, cells: &[u32], first: u32) -> Option<usize>
    ensures { rest_of result ≡ chained n n cells.now null first }
{
    let mut q = NULL;
    let mut i = first;
    let mut visits = n;
    while i != NULL {
        if n <= i as usize {
            return None;
        }
        if visits == 0 {
            return None;
        }
        let back = get(cells, i, PREV);
        if back != q {
            return None;
        }
        let next = get(cells, i, NEXT);
        q = i;
        i = next;
        visits -= 1;
    }
    Some(visits)
}
