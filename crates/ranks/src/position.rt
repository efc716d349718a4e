// position: how many pairs come before a pair in order.
ghost use Rattle.std.specs.Prelude.{◌≡◌};
ghost use Rattle.index_rules.specs.Live.{lent_tree};
ghost use Rattle.index_rules.specs.Ranks.{positions};
ghost use Rattle.ranks.specs.Calls.{position_refusal_of, position_of};
ghost use Rattle.ranks.specs.declared.position.PositionRefusal.TheVariants.{Unfit as PositionUnfit};

use crate::down::pair_rank;
use index::sound::sound;
use slots::answer::{Answer, Answers, Unfit, refused};
use slots::{NULL, ROOT, word};

// Why position refuses, with the number of each reason.
// Form kept: each call's enum has Unfit and Damaged again, so that a caller matches one enum with the very reasons of that call.
#[derive(Clone, Copy, PartialEq, Eq)]
pub enum PositionRefusal {
    Unfit, // 1
    Damaged, // 2
    Absent, // 4
}

impl Answers for PositionRefusal {
    ghost told = { position_refusal_of };

    fn answer(self) -> Answer {
        match self {
            PositionRefusal::Unfit => refused(1),
            PositionRefusal::Damaged => refused(2),
            PositionRefusal::Absent => refused(4),
        }
    }
}

impl From<Unfit> for PositionRefusal {
    ghost from_gives = { λ _ r. r ≡ PositionUnfit };

    fn from(_unfit: Unfit) -> PositionRefusal {
        PositionRefusal::Unfit
    }
}

// The position of the pair (hash, key) in order, counted from 0.
pub fn position(
    names: &[u64],
    cells: &[u32],
    head: &[u32],
    sizes: &[u32],
    hash: u64,
    key: u64,
) -> Result<u32, PositionRefusal>
    ensures { position_of result
        ≡ positions (lent_tree names.now cells.now head.now sizes.now) hash key }
{
    if !sound(names, cells, head, sizes)? {
        return Err(PositionRefusal::Damaged);
    }
    let root = word(head, ROOT, NULL);
    let n = (names.len() / 2) as u32;
    pair_rank(names, cells, sizes, root, hash, key, n).ok_or(PositionRefusal::Absent)
}
