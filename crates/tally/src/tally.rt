// Tally: a set counted into the totals, as accepted or as refused.
ghost use Rattle.std.specs.Prelude.{◌≡◌};
ghost use Rattle.set_rules.specs.Words.{lent_set};
ghost use Rattle.figure_rules.specs.Tally.{tally_outcome, tallies};
ghost use Rattle.tally.specs.Replies.{tally_refusal_of, tally_of};

use crate::add::add_set;
use crate::totals::{MOST_SETS, REFUSED, SETS, add_to, fit_totals};
use sets::accept::accept;
use slots::answer::{Answer, Answers, refused};
use slots::word;

// Why a tally is refused.
#[derive(Clone, Copy, PartialEq, Eq)]
pub enum TallyRefusal {
    Unfit, // 1
    TooMany, // 17
}

impl Answers for TallyRefusal {
    ghost told = { tally_refusal_of };

    fn answer(self) -> Answer {
        match self {
            TallyRefusal::Unfit => refused(1),
            TallyRefusal::TooMany => refused(17),
        }
    }
}

// "Tally adds a set to the totals. It answers 1 where the set is counted as accepted, 0 where as refused."
pub fn tally(
    lengths: &[u32],
    bins: &[u32],
    heads: &[u32],
    names: &[u64],
    cells: &[u32],
    totals: &mut [u64],
) -> Result<bool, TallyRefusal>
    ensures { tally_outcome (tally_of result) totals.new
        ≡ tallies (lent_set lengths.now bins.now heads.now names.now cells.now)
        totals.old }
{
    let fit = fit_totals(totals);
    if !fit {
        return Err(TallyRefusal::Unfit);
    }
    let sets = word(totals, SETS, 0);
    let refused = word(totals, REFUSED, 0);
    if MOST_SETS <= sets + refused {
        return Err(TallyRefusal::TooMany);
    }
    let accepted = accept(lengths, bins, heads, names, cells).unwrap_or(false);
    if !accepted {
        add_to(totals, REFUSED, 1);
        return Ok(false);
    }
    add_set(lengths, bins, heads, names, cells, totals);
    Ok(true)
}
