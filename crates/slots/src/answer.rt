// What a public routine answers, as the rules number it: each result says it so by the trait Answers.
ghost use Rattle.std.specs.Prelude.{◌≡◌, ◌+◌, ◌*◌};
ghost use Rattle.slots.specs.Answers.{given as giving, nothing as saying_nothing, refused as refusing, word_of, answer_word};
ghost use Rattle.slots.specs.Answers.{Answer as AnswerSpec};
ghost use Rattle.slots.specs.Coded.{answer_of, verdict, done, told_if_any, told_by, unfit_told, unsound_told};
ghost use Rattle.slots.specs.declared.answer.Unsound.TheVariants.{Unfit as OnlyUnfit};

use crate::NULL;

// Form kept: a number beside a value is what C and the programs are told; calls answer by Option and Result, which tell it by Answers.
// The number, 0 where the call is not refused, and the value that comes with it (a slot, the lines undone), if one does.
#[derive(Clone, Copy)]
pub struct Answer {
    pub number: u32,
    pub value: Option<u32>,
}

// Not refused, with a value.
pub fn given(value: u32) -> Answer
    ensures { answer_of result ≡ giving value }
{
    Answer {
        number: 0,
        value: Some(value),
    }
}

// Not refused, with no value.
pub fn nothing() -> Answer
    ensures { answer_of result ≡ saying_nothing }
{
    Answer {
        number: 0,
        value: None,
    }
}

// Refused, with no value.
pub fn refused(number: u32) -> Answer
    ensures { answer_of result ≡ refusing number }
{
    Answer {
        number,
        value: None,
    }
}

// A number and a value in one word: value + 2^32 * number.
pub fn packed(number: u32, value: u32) -> u64
    ensures { result ≡ value + 4294967296 * number }
{
    value as u64 + 4294967296 * (number as u64)
}

// The word of an answer, with bare as the value where nothing comes with number 0.
pub fn word_with(bare: u32, answer: Answer) -> u64
    ensures { result ≡ word_of bare (answer_of answer) }
{
    let number = answer.number;
    let value = answer.value;
    match value {
        Some(v) => packed(number, v),
        None => {
            if number == 0 {
                packed(0, bare)
            } else {
                packed(number, 0)
            }
        }
    }
}

// Null stands for Nothing and Done.
pub fn answer_word(answer: Answer) -> u64
    ensures { result ≡ answer_word (answer_of answer) }
{
    word_with(NULL, answer)
}

// What a call comes to, as a number and a value.
pub trait Answers {
    ghost told: { Self → AnswerSpec };

    fn answer(self) -> Answer
        ensures { answer_of result ≡ told self };
}

// A number that a call gives.
impl Answers for u32 {
    ghost told = { giving };

    fn answer(self) -> Answer {
        given(self)
    }
}

// Yes is 1, no is 0.
impl Answers for bool {
    ghost told = { verdict };

    fn answer(self) -> Answer {
        given(self as u32)
    }
}

// Done, with no number to give: 1.
impl Answers for () {
    ghost told = { done };

    fn answer(self) -> Answer {
        given(1)
    }
}

// What there is, or nothing.
impl<T: Answers> Answers for Option<T> {
    ghost told = { told_if_any T.told };

    fn answer(self) -> Answer {
        match self {
            Some(value) => value.answer(),
            None => nothing(),
        }
    }
}

// What a call gives, or its refusal.
impl<T: Answers, E: Answers> Answers for Result<T, E> {
    ghost told = { told_by T.told E.told };

    fn answer(self) -> Answer {
        match self {
            Ok(value) => value.answer(),
            Err(refusal) => refusal.answer(),
        }
    }
}

// Refusal 1 alone: the slices are none that the call works on.
#[derive(Clone, Copy)]
pub struct Unfit;

impl Answers for Unfit {
    ghost told = { unfit_told };

    fn answer(self) -> Answer {
        refused(1)
    }
}

// Refusals 1 and 2: the slices are none that the call works on, or what they hold is not sound.
#[derive(Clone, Copy)]
pub enum Unsound {
    Unfit,
    Damaged,
}

impl Answers for Unsound {
    ghost told = { unsound_told };

    fn answer(self) -> Answer {
        match self {
            Unsound::Unfit => refused(1),
            Unsound::Damaged => refused(2),
        }
    }
}

impl From<Unfit> for Unsound {
    ghost from_gives = { λ _ r. r ≡ OnlyUnfit };

    fn from(_unfit: Unfit) -> Unsound {
        Unsound::Unfit
    }
}
