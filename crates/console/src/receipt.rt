// What is printed at the end of an upload.
ghost use Rattle.std.specs.Prelude.{◌≡◌, ◌≤◌, length};
ghost use Rattle.index_rules.specs.Live.{lent_tree};
ghost use Rattle.script_rules.specs.Feeding.{lent_paper, receipts};

use crate::answer::{tell, tell_list};
use crate::feed::LONGEST;

// Writes the refusal of this number, or for 0 the list of the index, and answers how many bytes were written: none where the
// buffer has no room for the longest answer.
// Form kept: numbers, since the script prints a refusal by its number, and receipts in script_rules is over it.
#[tactic(auto, unfolding(script_rules::specs::Feeding::receipts, script_rules::specs::Answers::receipt_text))]
pub fn receipt(
    number: u32,
    names: &[u64],
    cells: &[u32],
    head: &[u32],
    sizes: &[u32],
    out: &mut [u8],
) -> usize
    ensures result_after { lent_paper out.new result
        ≡ receipts number (lent_tree names.now cells.now head.now sizes.now)
        (lent_paper out.old 0) }
    ensures bounds { result ≤ length out.new }
{
    if out.len() < LONGEST {
        return 0;
    }
    if number != 0 {
        return tell(out, 0, b"no ", number as u64);
    }
    tell_list(out, 0, names, cells, head, sizes)
}
