// The two ways of T6, slot by slot.
ghost use Rattle.std.specs.Prelude.{◌≡◌};
ghost use Rattle.script_rules.specs.Feeding.{typed, lent_paper};
ghost use Rattle.dump_rules.specs.Sentence.{step_text, down_to, onward, way_text, both_ways};

use console::fill::fill;
use console::paper::put_word;
use slots::{LEFT, NULL, PARENT, RIGHT, get, is_red};

// A slot of a way with its colour.
fn put_step(out: &mut [u8], at: usize, cells: &[u32], i: u32) -> usize
    ensures { lent_paper out.new result ≡ typed (lent_paper out.old at) (step_text cells.now i) }
{
    let numbers = [i as u64];
    if is_red(cells, i) {
        return fill(out, at, b"# red", &numbers);
    }
    fill(out, at, b"# black", &numbers)
}

// The slots from the root down to slot i, by its parents, at most so many above it.
fn put_down(out: &mut [u8], at: usize, cells: &[u32], i: u32, budget: usize) -> usize
    ensures { lent_paper out.new result ≡ typed (lent_paper out.old at) (down_to budget cells.now i) }
{
    if budget == 0 {
        return put_step(out, at, cells, i);
    }
    let p = get(cells, i, PARENT);
    if p == NULL {
        return put_step(out, at, cells, i);
    }
    let above = put_down(out, at, cells, p, budget - 1);
    let next = put_word(out, above, b", ");
    put_step(out, next, cells, i)
}

// The slots from the link i on by left links, at most so many.
fn put_onward(out: &mut [u8], at: usize, cells: &[u32], i: u32, budget: usize) -> usize
    ensures { lent_paper out.new result ≡ typed (lent_paper out.old at) (onward budget cells.now i) }
{
    let mut end = at;
    let mut link = i;
    for _ in 0..budget {
        if link == NULL {
            return end;
        }
        let next = put_word(out, end, b", ");
        end = put_step(out, next, cells, link);
        link = get(cells, link, LEFT);
    }
    end
}

// The way by slot i and its link along the field f.
fn put_way(out: &mut [u8], at: usize, n: usize, cells: &[u32], i: u32, f: u32) -> usize
    ensures { lent_paper out.new result ≡ typed (lent_paper out.old at) (way_text n cells.now i f) }
{
    let numbers = [f as u64];
    let named = fill(out, at, b"%: ", &numbers);
    let above = put_down(out, named, cells, i, n);
    let link = get(cells, i, f);
    let below = put_onward(out, above, cells, link, n);
    put_word(out, below, b"\n")
}

// The two ways by slot i.
pub(crate) fn put_ways(out: &mut [u8], at: usize, n: usize, cells: &[u32], i: u32) -> usize
    ensures { lent_paper out.new result ≡ typed (lent_paper out.old at) (both_ways n cells.now i) }
{
    let one = put_way(out, at, n, cells, i, LEFT);
    put_way(out, one, n, cells, i, RIGHT)
}
