// What the loader's calls answer.
ghost use Rattle.std.specs.Prelude.{◌≡◌};
ghost use Rattle.file.specs.Meanings.{load_refusal_of};

use slots::answer::{Answer, Answers, refused};

// Why a load is refused.
#[derive(Clone, Copy, PartialEq, Eq)]
pub enum LoadRefusal {
    Unfit, // 1
    Damaged, // 2
    Short, // 12
    Long, // 13
    OverLimit, // 14
}

impl Answers for LoadRefusal {
    ghost told = { load_refusal_of };

    fn answer(self) -> Answer {
        match self {
            LoadRefusal::Unfit => refused(1),
            LoadRefusal::Damaged => refused(2),
            LoadRefusal::Short => refused(12),
            LoadRefusal::Long => refused(13),
            LoadRefusal::OverLimit => refused(14),
        }
    }
}

// The bytes taken since the start; of a start 1.
pub type LoadReply = Result<u32, LoadRefusal>;
