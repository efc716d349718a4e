// kth: the slot of the pair at a position in order.
ghost use Rattle.std.specs.Prelude.{◌≡◌};
ghost use Rattle.index_rules.specs.Live.{lent_tree};
ghost use Rattle.index_rules.specs.Ranks.{kths};
ghost use Rattle.ranks.specs.Calls.{kth_refusal_of, kth_of};
ghost use Rattle.ranks.specs.declared.kth.KthRefusal.TheVariants.{Unfit as KthUnfit};

use crate::down::kth_slot;
use index::sound::sound;
use slots::answer::{Answer, Answers, Unfit, refused};
use slots::{COUNT, NULL, ROOT, word};

// Why kth refuses, with the number of each reason.
// Form kept: each call's enum has Unfit and Damaged again, so that a caller matches one enum with the very reasons of that call.
#[derive(Clone, Copy, PartialEq, Eq)]
pub enum KthRefusal {
    Unfit, // 1
    Damaged, // 2
    OutOfRange, // 15
}

impl Answers for KthRefusal {
    ghost told = { kth_refusal_of };

    fn answer(self) -> Answer {
        match self {
            KthRefusal::Unfit => refused(1),
            KthRefusal::Damaged => refused(2),
            KthRefusal::OutOfRange => refused(15),
        }
    }
}

impl From<Unfit> for KthRefusal {
    ghost from_gives = { λ _ r. r ≡ KthUnfit };

    fn from(_unfit: Unfit) -> KthRefusal {
        KthRefusal::Unfit
    }
}

// The slot of the pair at position k in order, counted from 0.
pub fn kth(
    names: &[u64],
    cells: &[u32],
    head: &[u32],
    sizes: &[u32],
    k: u32,
) -> Result<u32, KthRefusal>
    ensures { kth_of result ≡ kths (lent_tree names.now cells.now head.now sizes.now) k }
{
    if !sound(names, cells, head, sizes)? {
        return Err(KthRefusal::Damaged);
    }
    let count = word(head, COUNT, NULL);
    if count <= k {
        return Err(KthRefusal::OutOfRange);
    }
    let root = word(head, ROOT, NULL);
    Ok(kth_slot(cells, sizes, root, k, (names.len() / 2) as u32))
}
