// remove: a pair leaves the tree, and the journal takes a line.
ghost use Rattle.std.specs.Prelude.{◌≡◌, List, ℕ};
ghost use Rattle.index_rules.specs.Live.{lent_tree};
ghost use Rattle.index_rules.specs.Index.{lent, outcome};
ghost use Rattle.index_rules.specs.Remove.{removal_of, removes};
ghost use Rattle.index_rules.specs.Checked.{removes_sound};
ghost use Rattle.index.specs.Calls.{presence_of};
ghost use Rattle.index.specs.Frees.{appended_if};

use crate::journal::{NOTED_REMOVE, REMOVE, append};
use crate::present::{PairRefusal, present};
use crate::shrink::shrink;
use crate::sound::sound_index;
use slots::{HASH, KEY, NULL, PLACE, PREV, get, name};

// The line of a removal, before the slot x goes: its place, and the pair of the slot before it in the chain, if one stands there.
#[tactic(auto, unfolding(index_rules::specs::Remove::removal_of))]
fn note_removal(names: &[u64], cells: &[u32], lines: &mut [u64], hash: u64, key: u64, x: u32)
    ensures { (head sizes : List ℕ) → lines.new
        ≡ appended_if lines.old (removal_of (lent_tree names.now cells.now head sizes) hash key x) }
{
    let place = get(cells, x, PLACE) as u64;
    let y = get(cells, x, PREV);
    if y == NULL {
        append(lines, REMOVE, hash, key, place, 0, 0);
    } else {
        append(
            lines,
            NOTED_REMOVE,
            hash,
            key,
            place,
            name(names, y, HASH),
            name(names, y, KEY),
        );
    }
}

// remove where the full check has said yes.
pub fn remove_sound(
    names: &mut [u64],
    cells: &mut [u32],
    head: &mut [u32],
    sizes: &mut [u32],
    lines: &mut [u64],
    hash: u64,
    key: u64,
) -> Result<u32, PairRefusal>
    ensures { outcome (presence_of result)
        (lent names.new cells.new head.new sizes.new lines.new)
        ≡ removes_sound (lent names.old cells.old head.old sizes.old lines.old)
        hash key }
{
    let x = present(names, cells, head, sizes, lines, hash, key)?;
    note_removal(names, cells, lines, hash, key, x);
    shrink(names, cells, head, sizes, x);
    Ok(x)
}

// The pair (hash, key) leaves the tree, and the journal takes a line, which notes the pair before it in the chain, if one stood there. A
// refusal writes nothing.
pub fn remove(
    names: &mut [u64],
    cells: &mut [u32],
    head: &mut [u32],
    sizes: &mut [u32],
    lines: &mut [u64],
    hash: u64,
    key: u64,
) -> Result<u32, PairRefusal>
    ensures { outcome (presence_of result)
        (lent names.new cells.new head.new sizes.new lines.new)
        ≡ removes (lent names.old cells.old head.old sizes.old lines.old)
        hash key }
{
    if !sound_index(names, cells, head, sizes, lines)? {
        return Err(PairRefusal::Damaged);
    }
    remove_sound(names, cells, head, sizes, lines, hash, key)
}
