// insert: a pair with its place joins the tree, and the journal takes a line.
ghost use Rattle.std.specs.Prelude.{◌≡◌, ℕ};
ghost use Rattle.index_rules.specs.Index.{lent, outcome};
ghost use Rattle.index_rules.specs.Insert.{inserts};
ghost use Rattle.index_rules.specs.Checked.{raised_by, inserts_sound};
ghost use Rattle.index.specs.Calls.{insert_refusal_of, inserted_of};
ghost use Rattle.index.specs.declared.insert.InsertRefusal.TheVariants.{Unfit as InsertUnfit};

use crate::grow::{grow, lowest_free};
use crate::journal::{INSERT, append, is_full};
use crate::sound::{sound_index, taken_as_sound};
use slots::answer::{Answer, Answers, Unfit, refused};
use slots::{NULL, ROOT, word};
use tree::find::{Found, find_tree_node};

// Why insert refuses, with the number of each reason.
// Form kept: each call's enum has Unfit and Damaged again, so that a caller matches one enum with the very reasons of that call.
#[derive(Clone, Copy, PartialEq, Eq)]
pub enum InsertRefusal {
    Unfit, // 1
    Damaged, // 2
    Present(u32), // 3, with the slot that has the pair
    Full, // 5
    JournalFull, // 6
}

impl Answers for InsertRefusal {
    ghost told = { insert_refusal_of };

    fn answer(self) -> Answer {
        match self {
            InsertRefusal::Unfit => refused(1),
            InsertRefusal::Damaged => refused(2),
            InsertRefusal::Present(slot) => Answer {
                number: 3,
                value: Some(slot),
            },
            InsertRefusal::Full => refused(5),
            InsertRefusal::JournalFull => refused(6),
        }
    }
}

impl From<Unfit> for InsertRefusal {
    ghost from_gives = { λ _ r. r ≡ InsertUnfit };

    fn from(_unfit: Unfit) -> InsertRefusal {
        InsertRefusal::Unfit
    }
}

// The floor after an insert: the slot taken, null where none was free, else as it was.
#[tactic(auto, unfolding(index_rules::specs::Checked::raised_by))]
pub fn raise(inserted: Result<u32, InsertRefusal>, floor: u32) -> u32
    ensures { result ≡ raised_by (inserted_of inserted) floor }
{
    match inserted {
        Ok(slot) => slot,
        Err(InsertRefusal::Full) => NULL,
        Err(_) => floor,
    }
}

// What insert answers where the full check has said yes, before anything is written: the tests 1, 3, 5, 6 in turn, else the slot that the
// pair takes.
fn ask(
    names: &[u64],
    cells: &[u32],
    head: &[u32],
    sizes: &[u32],
    lines: &[u64],
    floor: u32,
    hash: u64,
    key: u64,
) -> Result<u32, InsertRefusal>
    ensures { (p : ℕ) → inserted_of result
        ≡ (inserts_sound floor
        (lent names.now cells.now head.now sizes.now lines.now)
        hash key p).answer }
{
    if !taken_as_sound(names, cells, head, sizes, lines)? {
        return Err(InsertRefusal::Damaged);
    }
    // Form kept: root and search stand at each caller, since a function for them would tell sought_in and slot_in again in its clause.
    let root = word(head, ROOT, NULL);
    let found = find_tree_node(names, cells, root, hash, key);
    if let Found::At(slot, _) = found {
        return Err(InsertRefusal::Present(slot));
    }
    let x = lowest_free(cells, (names.len() / 2) as u32, floor);
    if x == NULL {
        return Err(InsertRefusal::Full);
    }
    if is_full(lines) {
        return Err(InsertRefusal::JournalFull);
    }
    Ok(x)
}

// insert where the full check has said yes and no slot below the floor is free.
pub fn insert_sound(
    names: &mut [u64],
    cells: &mut [u32],
    head: &mut [u32],
    sizes: &mut [u32],
    lines: &mut [u64],
    floor: u32,
    hash: u64,
    key: u64,
    place: u32,
) -> Result<u32, InsertRefusal>
    ensures { outcome (inserted_of result)
        (lent names.new cells.new head.new sizes.new lines.new)
        ≡ inserts_sound floor
        (lent names.old cells.old head.old sizes.old lines.old)
        hash key place }
{
    let x = ask(names, cells, head, sizes, lines, floor, hash, key)?;
    grow(names, cells, head, sizes, x, NULL, hash, key, place);
    append(lines, INSERT, hash, key, place as u64, 0, 0);
    Ok(x)
}

// The pair (hash, key) with its place joins the tree, and the journal takes a line. A refusal writes nothing.
pub fn insert(
    names: &mut [u64],
    cells: &mut [u32],
    head: &mut [u32],
    sizes: &mut [u32],
    lines: &mut [u64],
    hash: u64,
    key: u64,
    place: u32,
) -> Result<u32, InsertRefusal>
    ensures { outcome (inserted_of result)
        (lent names.new cells.new head.new sizes.new lines.new)
        ≡ inserts (lent names.old cells.old head.old sizes.old lines.old)
        hash key place }
{
    if !sound_index(names, cells, head, sizes, lines)? {
        return Err(InsertRefusal::Damaged);
    }
    insert_sound(names, cells, head, sizes, lines, 0, hash, key, place)
}
