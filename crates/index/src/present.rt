// What remove and replace ask alike of a pair that has to be there, where the full check has said yes, and why both refuse.
ghost use Rattle.std.specs.Prelude.{◌≡◌, ℕ};
ghost use Rattle.index_rules.specs.Index.{Index, lent};
ghost use Rattle.index_rules.specs.Checked.{lowered_by, present_sound};
ghost use Rattle.index.specs.Calls.{pair_refusal_of, presence_of};
ghost use Rattle.index.specs.declared.present.PairRefusal.TheVariants.{Unfit as PairUnfit};

use crate::grow::lesser;
use crate::journal::is_full;
use crate::sound::taken_as_sound;
use slots::answer::{Answer, Answers, Unfit, refused};
use slots::{NULL, ROOT, word};
use tree::find::{Found, find_tree_node};

// Why remove and replace refuse, with the number of each reason.
// Form kept: each call's enum has Unfit and Damaged again, so that a caller matches one enum with the very reasons of that call.
#[derive(Clone, Copy, PartialEq, Eq)]
pub enum PairRefusal {
    Unfit, // 1
    Damaged, // 2
    Absent, // 4
    JournalFull, // 6
}

impl Answers for PairRefusal {
    ghost told = { pair_refusal_of };

    fn answer(self) -> Answer {
        match self {
            PairRefusal::Unfit => refused(1),
            PairRefusal::Damaged => refused(2),
            PairRefusal::Absent => refused(4),
            PairRefusal::JournalFull => refused(6),
        }
    }
}

impl From<Unfit> for PairRefusal {
    ghost from_gives = { λ _ r. r ≡ PairUnfit };

    fn from(_unfit: Unfit) -> PairRefusal {
        PairRefusal::Unfit
    }
}

// The floor after a remove: the slot freed, where it is lower.
#[tactic(auto, unfolding(index_rules::specs::Checked::lowered_by))]
pub fn lower(removed: Result<u32, PairRefusal>, floor: u32) -> u32
    ensures { result ≡ lowered_by (presence_of removed) floor }
{
    match removed {
        Ok(slot) => lesser(slot, floor),
        Err(_) => floor,
    }
}

// The tests 1, 4, 6 in turn, else the slot that has the pair, whatever is left by it.
pub(crate) fn present(
    names: &[u64],
    cells: &[u32],
    head: &[u32],
    sizes: &[u32],
    lines: &[u64],
    hash: u64,
    key: u64,
) -> Result<u32, PairRefusal>
    ensures { (leave : ℕ → Index) → presence_of result
        ≡ (present_sound (lent names.now cells.now head.now sizes.now lines.now)
        hash key leave).answer }
{
    if !taken_as_sound(names, cells, head, sizes, lines)? {
        return Err(PairRefusal::Damaged);
    }
    // Form kept: root and search stand at each caller, since a function for them would tell sought_in and slot_in again in its clause.
    let root = word(head, ROOT, NULL);
    let found = find_tree_node(names, cells, root, hash, key);
    let Found::At(x, _) = found else {
        return Err(PairRefusal::Absent);
    };
    if is_full(lines) {
        return Err(PairRefusal::JournalFull);
    }
    Ok(x)
}
