// The two calls of the index that a byte may make: they are checked once in a chunk.
ghost use Rattle.std.specs.Prelude.{◌≡◌, IfSome};
ghost use Rattle.index_rules.specs.Index.{lent, outcome};
ghost use Rattle.index_rules.specs.Rollback.{rolls};
ghost use Rattle.index.specs.Calls.{inserted_of};
ghost use Rattle.index.specs.Rolls.{rolled_of};
ghost use Rattle.index_rules.specs.Checked.{Ready};
ghost use Rattle.reader.specs.Trusting.{EntryMade};

use index::insert::{InsertRefusal, insert_sound, raise};
use index::rollback::{RollbackRefusal, rollback, rollback_sound};
use index::sound::sound_index;

// What an insert answered, and a slot below which none is free, where the check has said yes.
#[derive(Clone, Copy)]
pub(crate) struct Entered {
    pub inserted: Result<u32, InsertRefusal>,
    pub floor: Option<u32>,
}

// insert where the check has said yes.
fn enter_sound(
    names: &mut [u64],
    cells: &mut [u32],
    head: &mut [u32],
    sizes: &mut [u32],
    lines: &mut [u64],
    floor: u32,
    hash: u64,
    key: u64,
    place: u32,
) -> Entered
    requires { Ready (lent names.old cells.old head.old sizes.old lines.old) floor }
    ensures { EntryMade
        (lent names.old cells.old head.old sizes.old lines.old)
        hash key place (inserted_of result.inserted) result.floor
        (lent names.new cells.new head.new sizes.new lines.new) }
{
    let inserted = insert_sound(names, cells, head, sizes, lines, floor, hash, key, place);
    Entered {
        inserted,
        floor: Some(raise(inserted, floor)),
    }
}

// insert, with the check where it is the chunk's first.
pub(crate) fn enter(
    names: &mut [u64],
    cells: &mut [u32],
    head: &mut [u32],
    sizes: &mut [u32],
    lines: &mut [u64],
    floor: Option<u32>,
    hash: u64,
    key: u64,
    place: u32,
) -> Entered
    requires { IfSome floor (λ f. Ready (lent names.old cells.old head.old sizes.old lines.old) f) }
    ensures { EntryMade
        (lent names.old cells.old head.old sizes.old lines.old)
        hash key place (inserted_of result.inserted) result.floor
        (lent names.new cells.new head.new sizes.new lines.new) }
{
    if let Some(floor) = floor {
        return enter_sound(names, cells, head, sizes, lines, floor, hash, key, place);
    }
    match sound_index(names, cells, head, sizes, lines) {
        Err(unfit) => Entered {
            inserted: Err(unfit.into()),
            floor: None,
        },
        Ok(false) => Entered {
            inserted: Err(InsertRefusal::Damaged),
            floor: None,
        },
        Ok(true) => enter_sound(names, cells, head, sizes, lines, 0, hash, key, place),
    }
}

// rollback, with the check where none has said yes in the chunk.
pub(crate) fn back_to(
    names: &mut [u64],
    cells: &mut [u32],
    head: &mut [u32],
    sizes: &mut [u32],
    lines: &mut [u64],
    floor: Option<u32>,
    mark: u32,
) -> Result<u32, RollbackRefusal>
    requires { IfSome floor (λ f. Ready (lent names.old cells.old head.old sizes.old lines.old) f) }
    ensures { outcome (rolled_of result)
        (lent names.new cells.new head.new sizes.new lines.new)
        ≡ rolls (lent names.old cells.old head.old sizes.old lines.old) mark }
{
    match floor {
        Some(_) => rollback_sound(names, cells, head, sizes, lines, mark),
        None => rollback(names, cells, head, sizes, lines, mark),
    }
}
