// Why a live tree is not sound: the number told in the answer's word, and what shows it in eight words.
ghost use Rattle.std.specs.Prelude.{◌≡◌, length};
ghost use Rattle.index_rules.specs.Live.{lent_tree};
ghost use Rattle.night_rules.specs.Why.{whys};
ghost use Rattle.night.specs.Shown.{telling_shown};
ghost use Rattle.night.specs.Whys.{why_of};
ghost use Rattle.word_rules.specs.Words.{WhyWorded, why_worded};

use night::account::Account;
use night::why::why;
use slots::answer::{Answers, Unfit, answer_word, packed};
use slots::put_word;

// Slot, other, then two ways, each its last slot, side, blacks; a refusal leaves the words as they were.
fn show(shown: &mut [u32], told: Result<Account, Unfit>)
    requires { length shown.old ≡ 8 }
    ensures { shown.new ≡ telling_shown (why_of told) shown.old }
{
    let Ok(account) = told else {
        return;
    };
    let one = account.one;
    let two = account.two;
    put_word(shown, 0, account.slot);
    put_word(shown, 1, account.other);
    put_word(shown, 2, one.last);
    put_word(shown, 3, one.side);
    put_word(shown, 4, one.blacks);
    put_word(shown, 5, two.last);
    put_word(shown, 6, two.side);
    put_word(shown, 7, two.blacks);
}

// The number of the first broken rule of a live tree, 0 where it is sound, and what shows it; a refused call leaves `shown` as it was.
#[unsafe(no_mangle)]
pub extern "C" fn oz_why(
    names: &[u64],
    cells: &[u32],
    head: &[u32],
    sizes: &[u32],
    shown: &mut [u32],
) -> u64
    ensures { record { word = result; shown = shown.new }
        ≡ why_worded (whys (lent_tree names.now cells.now head.now sizes.now)
        shown.old) }
{
    if shown.len() != 8 {
        return packed(1, 0);
    }
    let told = why(names, cells, head, sizes);
    show(shown, told);
    answer_word(told.answer())
}
