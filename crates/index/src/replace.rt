// replace: a pair's place is another one, and the journal takes a line.
ghost use Rattle.std.specs.Prelude.{◌≡◌};
ghost use Rattle.index_rules.specs.Index.{lent, outcome};
ghost use Rattle.index_rules.specs.Replace.{replaces};
ghost use Rattle.index_rules.specs.Checked.{replaces_sound};
ghost use Rattle.index.specs.Calls.{presence_of};

use crate::journal::{REPLACE, append, both_places};
use crate::present::{PairRefusal, present};
use crate::sound::sound_index;
use slots::{PLACE, get, put};

// replace where the full check has said yes.
pub fn replace_sound(
    names: &[u64],
    cells: &mut [u32],
    head: &[u32],
    sizes: &[u32],
    lines: &mut [u64],
    hash: u64,
    key: u64,
    place: u32,
) -> Result<u32, PairRefusal>
    ensures { outcome (presence_of result)
        (lent names.now cells.new head.now sizes.now lines.new)
        ≡ replaces_sound (lent names.now cells.old head.now sizes.now lines.old)
        hash key place }
{
    let x = present(names, cells, head, sizes, lines, hash, key)?;
    let old = get(cells, x, PLACE);
    put(cells, x, PLACE, place);
    append(lines, REPLACE, hash, key, both_places(place, old), 0, 0);
    Ok(x)
}

// The place of the pair (hash, key) is this one, whatever it was, and the journal takes a line with both. A refusal writes nothing.
pub fn replace(
    names: &[u64],
    cells: &mut [u32],
    head: &[u32],
    sizes: &[u32],
    lines: &mut [u64],
    hash: u64,
    key: u64,
    place: u32,
) -> Result<u32, PairRefusal>
    ensures { outcome (presence_of result)
        (lent names.now cells.new head.now sizes.now lines.new)
        ≡ replaces (lent names.now cells.old head.now sizes.now lines.old)
        hash key place }
{
    if !sound_index(names, cells, head, sizes, lines)? {
        return Err(PairRefusal::Damaged);
    }
    replace_sound(names, cells, head, sizes, lines, hash, key, place)
}
