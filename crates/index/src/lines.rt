// A line of the journal is undone on the tree by the same drivers.
ghost use Rattle.std.specs.Prelude.{◌≡◌, ℕ, ◌+◌, ◌≤◌, ◌<◌, length, get_or};
ghost use Rattle.slots.specs.Words.{null, most_names};
ghost use Rattle.index_rules.specs.Live.{lent_tree};
ghost use Rattle.index_rules.specs.Index.{line_made, line_of};
ghost use Rattle.index_rules.specs.Insert.{sought_in};
ghost use Rattle.index_rules.specs.Rollback.{taken_back, put_back, put_behind, placed_back, undone_into};
ghost use Rattle.index_rules.specs.Checked.{slot_in, freed_by, unrolled_from};
ghost use Rattle.index.specs.Rolls.{undone_of, undo_of, freed_is};

use crate::grow::{grow, lesser, lowest_free};
use crate::journal::{
    INSERT, LINE_HASH, LINE_KEY, LINE_KIND, LINE_PLACE, LINE_PRIOR_HASH, LINE_PRIOR_KEY,
    MOST_PLACES, NOTED_REMOVE, REMOVE, REPLACE, line_word,
};
use crate::shrink::shrink;
use slots::{NULL, PLACE, ROOT, get, put, word};
use tree::find::{Found, find_tree_node};

// A line does not fit the tree, so that it cannot be undone.
#[derive(Clone, Copy)]
pub(crate) struct Misfit;

// An insert line is undone by a removal: its pair is there with its place. The slot that it freed; Misfit where it is not.
fn take_back(
    names: &mut [u64],
    cells: &mut [u32],
    head: &mut [u32],
    sizes: &mut [u32],
    hash: u64,
    key: u64,
    place: u64,
) -> Result<u32, Misfit>
    requires { length names.old ≤ most_names }
    ensures sizes_after { undone_of result (lent_tree names.new cells.new head.new sizes.new)
        ≡ taken_back (lent_tree names.old cells.old head.old sizes.old)
        (sought_in (lent_tree names.old cells.old head.old sizes.old) hash key) place }
    ensures freed_is { freed_is result
        (slot_in (sought_in (lent_tree names.old cells.old head.old sizes.old) hash key)) }
{
    // Form kept: root and search stand at each caller, since a function for them would tell sought_in and slot_in again in its clause.
    let root = word(head, ROOT, NULL);
    let found = find_tree_node(names, cells, root, hash, key);
    let Found::At(x, _) = found else {
        return Err(Misfit);
    };
    let own = get(cells, x, PLACE);
    if own as u64 != place {
        return Err(Misfit);
    }
    shrink(names, cells, head, sizes, x);
    Ok(x)
}

// A remove line is undone by an insert into the free slot x, right behind the slot y, at the front where y is null: its pair is not there,
// and there is a free slot. Misfit where that is not so, or where the place is wider than 32 bits.
// Form kept: null where no slot is freed, since it goes into lesser as a floor, and null is more than any.
fn put_back(
    names: &mut [u64],
    cells: &mut [u32],
    head: &mut [u32],
    sizes: &mut [u32],
    hash: u64,
    key: u64,
    place: u64,
    x: u32,
    y: u32,
) -> Result<u32, Misfit>
    requires names_len_bound { length names.old ≤ most_names }
    requires null_bound { get_or head.old 2 null < null }
    ensures by_index { (kind prior_hash prior_key : ℕ) → undone_of result
        (lent_tree names.new cells.new head.new sizes.new)
        ≡ put_back (lent_tree names.old cells.old head.old sizes.old) x
        (sought_in (lent_tree names.old cells.old head.old sizes.old) hash key)
        (line_made kind hash key place prior_hash prior_key) y }
    ensures freed_is { freed_is result null }
{
    // Form kept: root and search stand at each caller, since a function for them would tell sought_in and slot_in again in its clause.
    let root = word(head, ROOT, NULL);
    let found = find_tree_node(names, cells, root, hash, key);
    if let Found::At(_, _) = found {
        return Err(Misfit);
    }
    if x == NULL {
        return Err(Misfit);
    }
    if MOST_PLACES <= place {
        return Err(Misfit);
    }
    grow(names, cells, head, sizes, x, y, hash, key, place as u32);
    Ok(NULL)
}

// A remove line that notes a pair is undone right behind that one. Misfit where it is not there.
// Form kept: null where no slot is freed, since it goes into lesser as a floor, and null is more than any.
fn put_behind(
    names: &mut [u64],
    cells: &mut [u32],
    head: &mut [u32],
    sizes: &mut [u32],
    hash: u64,
    key: u64,
    place: u64,
    prehash: u64,
    prekey: u64,
    x: u32,
) -> Result<u32, Misfit>
    requires names_len_bound { length names.old ≤ most_names }
    requires null_bound { get_or head.old 2 null < null }
    ensures by_index { (kind : ℕ) → undone_of result (lent_tree names.new cells.new head.new sizes.new)
        ≡ put_behind (lent_tree names.old cells.old head.old sizes.old) x
        (sought_in (lent_tree names.old cells.old head.old sizes.old) prehash prekey)
        (sought_in (lent_tree names.old cells.old head.old sizes.old) hash key)
        (line_made kind hash key place prehash prekey) }
    ensures freed_is { freed_is result null }
{
    // Form kept: root and search stand at each caller, since a function for them would tell sought_in and slot_in again in its clause.
    let root = word(head, ROOT, NULL);
    let found = find_tree_node(names, cells, root, prehash, prekey);
    let Found::At(y, _) = found else {
        return Err(Misfit);
    };
    put_back(names, cells, head, sizes, hash, key, place, x, y)
}

// A replace line is undone by the old place: its pair is there with the new one. Misfit where it is not.
// Form kept: null where no slot is freed, since it goes into lesser as a floor, and null is more than any.
fn place_back(
    names: &[u64],
    cells: &mut [u32],
    head: &[u32],
    sizes: &[u32],
    hash: u64,
    key: u64,
    places: u64,
) -> Result<u32, Misfit>
    ensures sizes_after { undone_of result (lent_tree names.now cells.new head.now sizes.now)
        ≡ placed_back (lent_tree names.now cells.old head.now sizes.now)
        (sought_in (lent_tree names.now cells.old head.now sizes.now) hash key) places }
    ensures freed_is { freed_is result null }
{
    // Form kept: root and search stand at each caller, since a function for them would tell sought_in and slot_in again in its clause.
    let root = word(head, ROOT, NULL);
    let found = find_tree_node(names, cells, root, hash, key);
    let Found::At(x, _) = found else {
        return Err(Misfit);
    };
    let own = get(cells, x, PLACE);
    if own as u64 != places % MOST_PLACES {
        return Err(Misfit);
    }
    put(cells, x, PLACE, (places / MOST_PLACES) as u32);
    Ok(NULL)
}

// Line k is undone; a pair that comes back takes the free slot x. Misfit where it does not fit; the slices are then left anyhow.
// Form kept: null where no slot is freed, since it goes into lesser as a floor, and null is more than any.
fn undo_line(
    names: &mut [u64],
    cells: &mut [u32],
    head: &mut [u32],
    sizes: &mut [u32],
    lines: &[u64],
    k: usize,
    x: u32,
) -> Result<u32, Misfit>
    requires names_len_bound { length names.old ≤ most_names }
    requires null_bound { get_or head.old 2 null < null }
    ensures sizes_after { undone_of result (lent_tree names.new cells.new head.new sizes.new)
        ≡ undone_into x (lent_tree names.old cells.old head.old sizes.old)
        (line_of lines.now k) }
    ensures freed_is { freed_is result
        (freed_by (lent_tree names.old cells.old head.old sizes.old)
        (line_of lines.now k)) }
{
    let kind = line_word(lines, k, LINE_KIND);
    let hash = line_word(lines, k, LINE_HASH);
    let key = line_word(lines, k, LINE_KEY);
    let place = line_word(lines, k, LINE_PLACE);
    if kind == INSERT {
        return take_back(names, cells, head, sizes, hash, key, place);
    }
    if kind == REMOVE {
        return put_back(names, cells, head, sizes, hash, key, place, x, NULL);
    }
    if kind == NOTED_REMOVE {
        let prehash = line_word(lines, k, LINE_PRIOR_HASH);
        let prekey = line_word(lines, k, LINE_PRIOR_KEY);
        return put_behind(
            names, cells, head, sizes, hash, key, place, prehash, prekey, x,
        );
    }
    if kind == REPLACE {
        return place_back(names, cells, head, sizes, hash, key, place);
    }
    Err(Misfit)
}

// So many lines from m on are undone, from the last down; the search for a free slot goes on where the last one ended, or at a lower slot
// that was freed since. Misfit where one does not fit; the slices are then left anyhow.
pub(crate) fn unroll(
    names: &mut [u64],
    cells: &mut [u32],
    head: &mut [u32],
    sizes: &mut [u32],
    lines: &[u64],
    m: u32,
    count: u32,
) -> Result<(), Misfit>
    requires names_len_bound { length names.old ≤ most_names }
    requires count_bound { get_or head.old 2 null + count < null }
    ensures { undo_of result (lent_tree names.new cells.new head.new sizes.new)
        ≡ unrolled_from count 0 (lent_tree names.old cells.old head.old sizes.old)
        lines.now m }
{
    let n = (names.len() / 2) as u32;
    let mut floor: u32 = 0;
    for c in (0..count).rev() {
        let x = lowest_free(cells, n, floor);
        let freed = undo_line(names, cells, head, sizes, lines, m as usize + c as usize, x)?;
        floor = lesser(freed, x);
    }
    Ok(())
}
