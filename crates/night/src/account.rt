// What is told of a tree, as `shown` has it.
ghost use Rattle.std.specs.Prelude.{◌≡◌};
ghost use Rattle.night_rules.specs.Account.{no_way, tells_slot, tells_pair, tells_ways};
ghost use Rattle.night.specs.Told.{way_of, account_of, account_told};

use slots::NULL;
use slots::answer::{Answer, Answers, given};

// A way from the root to a null link: its last slot, the side of that link (0 left, 1 right), and the black slots met.
// Form kept: the side is a number and a word that says nothing is null, since these are the words that the C interface writes (why-called).
#[derive(Clone, Copy)]
pub struct WayDown {
    pub last: u32,
    pub side: u32,
    pub blacks: u32,
}

// The number of the first broken rule, 0 for a sound tree, and what shows it; words that say nothing are null.
// Form kept: the rule is a number, 0 for a sound tree, and nulls say nothing, since these are the words of oz_why.
#[derive(Clone, Copy)]
pub struct Account {
    pub rule: u32,
    pub slot: u32,
    pub other: u32,
    pub one: WayDown,
    pub two: WayDown,
}

// Its number: that of the broken rule, or 0.
impl Answers for Account {
    ghost told = { account_told };

    fn answer(self) -> Answer {
        given(self.rule)
    }
}

// Three words that say nothing.
fn no_way() -> WayDown
    ensures { way_of result ≡ no_way }
{
    WayDown {
        last: NULL,
        side: NULL,
        blacks: NULL,
    }
}

// A rule and the slot that shows it; a null slot stands for the header.
pub(crate) fn tells_slot(rule: u32, slot: u32) -> Account
    ensures { account_of result ≡ tells_slot rule slot }
{
    Account {
        rule,
        slot,
        other: NULL,
        one: no_way(),
        two: no_way(),
    }
}

// A slot and the next one in order, whose pair is not above its own.
pub(crate) fn tells_pair(slot: u32, other: u32) -> Account
    ensures { account_of result ≡ tells_pair slot other }
{
    Account {
        rule: 4,
        slot,
        other,
        one: no_way(),
        two: no_way(),
    }
}

// A slot and two ways by it that meet unequally many black slots.
pub(crate) fn tells_ways(slot: u32, one: WayDown, two: WayDown) -> Account
    ensures { account_of result ≡ tells_ways slot (way_of one) (way_of two) }
{
    Account {
        rule: 6,
        slot,
        other: NULL,
        one,
        two,
    }
}
