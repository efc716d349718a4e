// A slot is hung where the order of pairs says, and the tree is balanced.
ghost use Rattle.std.specs.Prelude.{◌≡◌, ℕ, List};
ghost use Rattle.redblack.specs.Hanging.{spot, hooked, inserted, spotted};
ghost use Rattle.redblack.specs.Links.{lent_links};

use crate::balance::balance_insertion;
use crate::sizes::{ONE_MORE, weigh};
use crate::spot::find_spot;
use slots::{LEFT, NULL, PARENT, RIGHT, put};

// The slot x hangs at the spot, with no child. The root and the sizes, whatever they are, stay.
fn hook(cells: &mut [u32], x: u32, above: u32, side: u32)
    ensures { (root : ℕ) (sizes : List ℕ) → lent_links cells.new root sizes
        ≡ hooked (lent_links cells.old root sizes) x (spot above side) }
{
    put(cells, x, PARENT, above);
    put(cells, x, LEFT, NULL);
    put(cells, x, RIGHT, NULL);
    put(cells, above, side, x);
}

// The slot x is hung where the order says that the pair (hash, key) hangs and counted in the sizes, and the tree is
// balanced: in an empty tree x becomes the root and is black. Returns the root.
pub fn hang_slot(
    names: &[u64],
    cells: &mut [u32],
    sizes: &mut [u32],
    root: u32,
    x: u32,
    hash: u64,
    key: u64,
    budget: u32,
) -> u32
    ensures { lent_links cells.new result sizes.new
        ≡ inserted budget (lent_links cells.old root sizes.old) x
        (spotted budget names.now (lent_links cells.old root sizes.old) hash key) }
{
    let at = find_spot(names, cells, root, hash, key, budget);
    let above = at.above;
    let side = at.side;
    hook(cells, x, above, side);
    weigh(cells, sizes, x, 1, ONE_MORE, budget);
    balance_insertion(cells, sizes, root, x, budget)
}
