// The rotations, once over the side: near and far are the fields of the two sides.
ghost use Rattle.std.specs.Prelude.{◌≡◌, ℕ, List};
ghost use Rattle.redblack.specs.Rotate.{hung, rotated};
ghost use Rattle.redblack.specs.Links.{lent_links};

use crate::sizes::recount;
use slots::{BLACK, NULL, PARENT, STATE, get, put};

// r takes p's place under pp, or becomes the root and is painted black. The sizes, whatever they are, stay.
fn hang(cells: &mut [u32], root: u32, pp: u32, p: u32, r: u32, near: u32, far: u32) -> u32
    ensures { (sizes : List ℕ) → lent_links cells.new result sizes
        ≡ hung near far (lent_links cells.old root sizes) pp p r }
{
    if pp == NULL {
        put(cells, r, STATE, BLACK);
        return r;
    }
    if get(cells, pp, near) == p {
        put(cells, pp, near, r);
    } else {
        put(cells, pp, far, r);
    }
    root
}

// The child of p on the far side takes p's place, and p becomes its child on the near side; the sizes of the two are written last, by the
// links as they stand then. The source's rotate_left is this one with LEFT and RIGHT, its rotate_right with RIGHT and LEFT. Where p or that
// child is null nothing is written, and the root is the one given.
pub(crate) fn rotate(
    cells: &mut [u32],
    sizes: &mut [u32],
    root: u32,
    p: u32,
    near: u32,
    far: u32,
) -> u32
    ensures { lent_links cells.new result sizes.new
        ≡ rotated near far (lent_links cells.old root sizes.old) p }
{
    if p == NULL {
        return root;
    }
    let r = get(cells, p, far);
    if r == NULL {
        return root;
    }
    let inner = get(cells, r, near);
    put(cells, p, far, inner);
    put(cells, inner, PARENT, p);
    let pp = get(cells, p, PARENT);
    put(cells, r, PARENT, pp);
    let top = hang(cells, root, pp, p, r, near, far);
    put(cells, r, near, p);
    put(cells, p, PARENT, r);
    let near_child = get(cells, p, near);
    let far_child = get(cells, p, far);
    recount(sizes, p, r, near_child, far_child);
    top
}
