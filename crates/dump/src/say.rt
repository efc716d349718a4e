// The sentences.
ghost use Rattle.std.specs.Prelude.{◌≡◌};
ghost use Rattle.index_rules.specs.Live.{lent_tree};
ghost use Rattle.script_rules.specs.Feeding.{typed, lent_paper};
ghost use Rattle.night.specs.Told.{account_of};
ghost use Rattle.night.specs.Breaches.{breach_of};
ghost use Rattle.dump_rules.specs.Sentence.{sentence, opening, broken_text, tree_text};

use crate::ways::put_ways;
use console::fill::fill;
use console::paper::put_word;
use night::account::Account;
use night::breach::Breach;
use night::examine::examine;
use slots::NULL;

// The sentence of a breach.
// Form kept: an arm for each, since the sentences have one to four numbers, and the clause of fill speaks of just these; and no Display,
// since a clause says byte for byte what stands in a lent slice, and the library has no heap.
fn say(out: &mut [u8], at: usize, breach: Breach) -> usize
    ensures { lent_paper out.new result ≡ typed (lent_paper out.old at) (sentence (breach_of breach)) }
{
    match breach {
        Breach::StrayLink(f, x) => {
            let numbers = [f as u64, x as u64];
            fill(out, at, b"its % link # names no slot\n", &numbers)
        }
        Breach::StrayState(s) => {
            let numbers = [s as u64];
            fill(out, at, b"its state is #\n", &numbers)
        }
        Breach::LeftHash(v) => {
            let numbers = [v];
            fill(out, at, b"free, and its hash is #\n", &numbers)
        }
        Breach::LeftKey(v) => {
            let numbers = [v];
            fill(out, at, b"free, and its key is #\n", &numbers)
        }
        Breach::LeftField(f, v) => {
            let numbers = [f as u64, v as u64];
            fill(out, at, b"free, and its % is #\n", &numbers)
        }
        Breach::StrayRoot(x) => {
            let numbers = [x as u64];
            fill(out, at, b"root # names no slot\n", &numbers)
        }
        Breach::StrayFirst(x) => {
            let numbers = [x as u64];
            fill(out, at, b"first # names no slot\n", &numbers)
        }
        Breach::Miscount(c, u) => {
            let numbers = [c as u64, u as u64];
            fill(out, at, b"count #, and # slots are used\n", &numbers)
        }
        Breach::RootCount(c, x) => {
            let numbers = [c as u64, x as u64];
            fill(out, at, b"count #, and root is @\n", &numbers)
        }
        Breach::FirstCount(c, x) => {
            let numbers = [c as u64, x as u64];
            fill(out, at, b"count #, and first is @\n", &numbers)
        }
        Breach::RootUnder(p) => {
            let numbers = [p as u64];
            fill(out, at, b"the root, and its parent is #\n", &numbers)
        }
        Breach::Orphan => put_word(out, at, b"not the root, and it has no parent\n"),
        Breach::Disowned(p, l, r) => {
            let numbers = [p as u64, l as u64, r as u64];
            fill(
                out,
                at,
                b"its parent # has the children @ and @\n",
                &numbers,
            )
        }
        Breach::ChildElsewhere(f, x, p) => {
            let numbers = [f as u64, x as u64, p as u64];
            fill(out, at, b"its % child # has the parent @\n", &numbers)
        }
        Breach::ChildTwice(x) => {
            let numbers = [x as u64];
            fill(out, at, b"both its children are #\n", &numbers)
        }
        Breach::OffRoot(x) => {
            let numbers = [x as u64];
            fill(
                out,
                at,
                b"its parents do not lead to the root @\n",
                &numbers,
            )
        }
        Breach::Falls(h, k, g, m, j) => {
            let numbers = [h, k, g, m, j as u64];
            fill(
                out,
                at,
                b"hash # key # is not below hash # key # of slot #, the next in order\n",
                &numbers,
            )
        }
        Breach::RedRoot => put_word(out, at, b"red, and the root\n"),
        Breach::RedUnder(f, x) => {
            let numbers = [f as u64, x as u64];
            fill(out, at, b"red, and so is its % child #\n", &numbers)
        }
        Breach::Uneven(a, b) => {
            let numbers = [a as u64, b as u64];
            fill(
                out,
                at,
                b"# black slots on a way by its left link, # on one by its right\n",
                &numbers,
            )
        }
        Breach::FirstBehind(p) => {
            let numbers = [p as u64];
            fill(out, at, b"first, and its prev is #\n", &numbers)
        }
        Breach::PrevAstray(p, x) => {
            let numbers = [p as u64, x as u64];
            fill(out, at, b"its prev # has the next @\n", &numbers)
        }
        Breach::NextAstray(x, p) => {
            let numbers = [x as u64, p as u64];
            fill(out, at, b"its next # has the prev @\n", &numbers)
        }
        Breach::OffFirst(x) => {
            let numbers = [x as u64];
            fill(out, at, b"its prevs do not lead to first @\n", &numbers)
        }
        Breach::WrongSize(s, m) => {
            let numbers = [s as u64, m];
            fill(out, at, b"size #, and its subtree has # pairs\n", &numbers)
        }
        Breach::FreeSize(s) => {
            let numbers = [s as u64];
            fill(out, at, b"free, and its size is #\n", &numbers)
        }
    }
}

// The rule, and the slot or the header.
fn open_line(out: &mut [u8], at: usize, rule: u32, slot: u32) -> usize
    ensures { lent_paper out.new result ≡ typed (lent_paper out.old at) (opening rule slot) }
{
    let numbers = [rule as u64, slot as u64];
    if slot == NULL {
        return fill(out, at, b"T# header: ", &numbers);
    }
    fill(out, at, b"T# slot #: ", &numbers)
}

// The rule, the slot or the header, how it is broken, and of T6 the two ways.
fn tell_broken(
    out: &mut [u8],
    at: usize,
    n: usize,
    cells: &[u32],
    told: Account,
    breach: Breach,
) -> usize
    ensures { lent_paper out.new result
        ≡ typed (lent_paper out.old at) (broken_text n cells.now (account_of told) (breach_of breach)) }
{
    let opened = open_line(out, at, told.rule, told.slot);
    let said = say(out, opened, breach);
    if told.rule == 6 {
        return put_ways(out, said, n, cells, told.slot);
    }
    said
}

// What is found of the tree.
pub(crate) fn tell_tree(
    out: &mut [u8],
    at: usize,
    names: &[u64],
    cells: &[u32],
    head: &[u32],
    sizes: &[u32],
) -> usize
    ensures { lent_paper out.new result
        ≡ typed (lent_paper out.old at)
        (tree_text (lent_tree names.now cells.now head.now sizes.now)) }
{
    match examine(names, cells, head, sizes) {
        Ok(None) => put_word(out, at, b"sound\n"),
        Ok(Some((told, breach))) => { tell_broken(out, at, names.len() / 2, cells, told, breach) }
        Err(_) => {
            let numbers = [
                names.len() as u64,
                cells.len() as u64,
                head.len() as u64,
                sizes.len() as u64,
            ];
            fill(
                out,
                at,
                b"unfit: # words of names, # of cells, # of head, # of sizes\n",
                &numbers,
            )
        }
    }
}
