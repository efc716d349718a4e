// What the reader's calls answer.
ghost use Rattle.std.specs.Prelude.{◌≡◌};
ghost use Rattle.index.specs.Calls.{insert_refusal_of};
ghost use Rattle.index.specs.Rolls.{rollback_refusal_of, rolled_of};
ghost use Rattle.upload_rules.specs.Reading.{goes_up};
ghost use Rattle.reader.specs.Meanings.{read_refusal_of};

use index::insert::InsertRefusal;
use index::rollback::RollbackRefusal;
use slots::answer::{Answer, Answers, refused};

// Why the reader refuses, with the number of each reason.
#[derive(Clone, Copy)]
pub enum ReadRefusal {
    Unfit, // 1
    Damaged, // 2
    Present(u32), // 3, with the slot that has the pair
    Full, // 5
    JournalFull, // 6
    BadMark, // 7
    Misfit, // 8
    Short, // 12
    Long, // 13
    WrongKind, // 18
}

// What a call of the reader answers: the entries taken since the start, of a start 1, or why it refuses.
pub type Reply = Result<u32, ReadRefusal>;

impl Answers for ReadRefusal {
    ghost told = { read_refusal_of };

    fn answer(self) -> Answer {
        match self {
            ReadRefusal::Unfit => refused(1),
            ReadRefusal::Damaged => refused(2),
            ReadRefusal::Present(slot) => Answer {
                number: 3,
                value: Some(slot),
            },
            ReadRefusal::Full => refused(5),
            ReadRefusal::JournalFull => refused(6),
            ReadRefusal::BadMark => refused(7),
            ReadRefusal::Misfit => refused(8),
            ReadRefusal::Short => refused(12),
            ReadRefusal::Long => refused(13),
            ReadRefusal::WrongKind => refused(18),
        }
    }
}

// A refusal of the insert is the reader's.
impl From<InsertRefusal> for ReadRefusal {
    ghost from_gives = { λ e r. read_refusal_of r ≡ insert_refusal_of e };

    fn from(refusal: InsertRefusal) -> ReadRefusal {
        match refusal {
            InsertRefusal::Unfit => ReadRefusal::Unfit,
            InsertRefusal::Damaged => ReadRefusal::Damaged,
            InsertRefusal::Present(slot) => ReadRefusal::Present(slot),
            InsertRefusal::Full => ReadRefusal::Full,
            InsertRefusal::JournalFull => ReadRefusal::JournalFull,
        }
    }
}

// So is one of the rollback.
impl From<RollbackRefusal> for ReadRefusal {
    ghost from_gives = { λ e r. read_refusal_of r ≡ rollback_refusal_of e };

    fn from(refusal: RollbackRefusal) -> ReadRefusal {
        match refusal {
            RollbackRefusal::Unfit => ReadRefusal::Unfit,
            RollbackRefusal::Damaged => ReadRefusal::Damaged,
            RollbackRefusal::BadMark => ReadRefusal::BadMark,
            RollbackRefusal::Misfit => ReadRefusal::Misfit,
        }
    }
}

// The refusal, or that of the rollback where it is refused in turn.
#[tactic(auto, unfolding(upload_rules::specs::Reading::goes_up))]
pub(crate) fn after_rollback(
    refusal: ReadRefusal,
    back: Result<u32, RollbackRefusal>,
) -> ReadRefusal
    ensures { read_refusal_of result ≡ goes_up (read_refusal_of refusal) (rolled_of back) }
{
    match back {
        Ok(_) => refusal,
        Err(again) => again.into(),
    }
}
