// The two ways down a tree by the sizes of left subtrees. They end on any words: each takes at most so many steps.
ghost use Rattle.std.specs.Prelude.{◌≡◌};
ghost use Rattle.tree_rules.specs.Ranks.{kth_from, rank_from};
ghost use Rattle.slots.specs.Coded.{value_of};

use slots::{HASH, KEY, LEFT, NULL, RIGHT, comes_before, get, name, word};

// The slot at position k below root, counted from 0.
// Form kept: null and no Option, since the clause equates the result with the rules' kth_from; on a sound tree it never comes.
pub(crate) fn kth_slot(cells: &[u32], sizes: &[u32], root: u32, k: u32, steps: u32) -> u32
    ensures { result ≡ kth_from steps cells.now sizes.now root k }
{
    let mut i = root;
    let mut rest = k;
    for _left in (0..steps).rev() {
        let l = get(cells, i, LEFT);
        let w = word(sizes, l as usize, 0);
        if rest == w {
            return i;
        }
        if rest < w {
            i = l;
        } else {
            i = get(cells, i, RIGHT);
            rest = rest - w - 1;
        }
    }
    NULL
}

// The position of the pair below root. A sum begins again at 0 past the last word, as the model's does.
pub(crate) fn pair_rank(
    names: &[u64],
    cells: &[u32],
    sizes: &[u32],
    root: u32,
    hash: u64,
    key: u64,
    steps: u32,
) -> Option<u32>
    ensures { value_of result ≡ rank_from steps names.now cells.now sizes.now root hash key 0 }
{
    let mut i = root;
    let mut m: u32 = 0;
    for _left in (0..steps).rev() {
        if i == NULL {
            return None;
        }
        let at = name(names, i, HASH);
        let own = name(names, i, KEY);
        let l = get(cells, i, LEFT);
        if comes_before(hash, key, at, own) {
            i = l;
        } else {
            let w = word(sizes, l as usize, 0);
            if !comes_before(at, own, hash, key) {
                return Some(m.wrapping_add(w));
            }
            m = m.wrapping_add(w).wrapping_add(1);
            i = get(cells, i, RIGHT);
        }
    }
    None
}
