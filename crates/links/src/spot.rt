// Where the order of pairs says that a pair hangs.
ghost use Rattle.std.specs.Prelude.{◌≡◌, ℕ, List};
ghost use Rattle.redblack.specs.Hanging.{side_for, descended, spotted};
ghost use Rattle.links.specs.Spots.{spot_of};
ghost use Rattle.redblack.specs.Links.{lent_links};

use slots::{HASH, KEY, LEFT, NULL, RIGHT, comes_before, get, name};

// The slot above, null where the tree is empty, and the field of the side to hang on.
// Form kept: both are written as they stand, the slot as the new one's parent and the side as the field of its link.
#[derive(Clone, Copy)]
pub(crate) struct Spot {
    pub(crate) above: u32,
    pub(crate) side: u32,
}

// The side of slot p where the pair belongs.
fn side_for(names: &[u64], p: u32, hash: u64, key: u64) -> u32
    ensures { result ≡ side_for names.now p hash key }
{
    let at = name(names, p, HASH);
    let own = name(names, p, KEY);
    if comes_before(hash, key, at, own) {
        LEFT
    } else {
        RIGHT
    }
}

// Down from the slot p by the order of pairs until a null link, at most so many steps.
fn descend(names: &[u64], cells: &[u32], p: u32, hash: u64, key: u64, steps: u32) -> Spot
    ensures { spot_of result ≡ descended names.now cells.now steps p hash key }
{
    let mut at = p;
    for _ in 0..steps {
        let side = side_for(names, at, hash, key);
        let q = get(cells, at, side);
        if q == NULL {
            return Spot { above: at, side };
        }
        at = q;
    }
    let side = side_for(names, at, hash, key);
    Spot { above: at, side }
}

// The spot where the order says that the pair hangs: under no slot where the tree is empty.
pub(crate) fn find_spot(
    names: &[u64],
    cells: &[u32],
    root: u32,
    hash: u64,
    key: u64,
    steps: u32,
) -> Spot
    ensures { (sizes : List ℕ) → spot_of result
        ≡ spotted steps names.now (lent_links cells.now root sizes) hash key }
{
    if root == NULL {
        return Spot {
            above: NULL,
            side: LEFT,
        };
    }
    descend(names, cells, root, hash, key, steps)
}
