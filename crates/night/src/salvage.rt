// What can be saved of a damaged tree: its slots by number, whatever their links, into a second tree that is cleared.
ghost use Rattle.std.specs.Prelude.{◌≡◌, ◌+◌, ◌<◌, ◌≤◌, length, get_or};
ghost use Rattle.slots.specs.Words.{null, most_slots, most_names};
ghost use Rattle.index_rules.specs.Live.{lent_tree};
ghost use Rattle.night_rules.specs.Salvage.{salvaging, salvaged_pair, salvaged_slot, salvaged_all, is_cleared_tree, fits_salvage};
ghost use Rattle.night_rules.specs.Salvage.{salvaged, salvages};
ghost use Rattle.night_rules.specs.Saved.{FitSalvage};
ghost use Rattle.night.specs.Salvages.{salvage_of};
ghost use Rattle.night.specs.Sources.{Sources, SlotReady};

use index::grow::grow;
use index::sound::sound;
use slots::answer::Unfit;
use slots::{
    COUNT, FREE, HASH, KEY, MOST_SLOTS, NULL, PLACE, RED, ROOT, STATE, get, name, put_word, word,
};
use tree::find::{Found, find_tree_node};

// The words of the report.
// Form kept: numbers and no enum, since the report is a slice of words that the C interface lends.
const KEPT: u32 = 0;

const UNUSED: u32 = 1;

const UNKNOWN: u32 = 2;

const REPEATS: u32 = 3; // and the slot

// Slot i, of state 1 or 2: it repeats the slot that its pair came from, or is kept in the slot that is the number kept so far, and is then
// the source of that one. The number kept then.
fn save_pair(
    names: &[u64],
    cells: &[u32],
    names2: &mut [u64],
    cells2: &mut [u32],
    head2: &mut [u32],
    sizes2: &mut [u32],
    report: &mut [u32],
    from: &mut [u32],
    i: u32,
    kept: u32,
) -> u32
    requires names2_len_bound { length names2.old ≤ most_names }
    requires null_bound { get_or head2.old 2 null < null }
    requires i_lt_most_slots { i < most_slots }
    requires kept_le_i { kept ≤ i }
    requires slot_ready { SlotReady names.now (lent_tree names2.old cells2.old head2.old sizes2.old) report.old i kept from.old }
    ensures { (salvaging (lent_tree names2.new cells2.new head2.new sizes2.new) result
        report.new
        ≡ salvaged_pair names.now cells.now i
        (salvaging (lent_tree names2.old cells2.old head2.old sizes2.old) kept
        report.old))
        × Sources report.new (i + 1) result from.new }
{
    let hash = name(names, i, HASH);
    let key = name(names, i, KEY);
    // Form kept: root and search stand at each caller, since a function for them would tell sought_in and slot_in again in its clause.
    let root = word(head2, ROOT, NULL);
    let found = find_tree_node(names2, cells2, root, hash, key);
    if let Found::At(x, _) = found {
        let s = word(from, x as usize, NULL);
        put_word(report, i as usize, REPEATS + s);
        return kept;
    }
    let place = get(cells, i, PLACE);
    grow(names2, cells2, head2, sizes2, kept, NULL, hash, key, place);
    put_word(report, i as usize, KEPT);
    put_word(from, kept as usize, i);
    kept + 1
}

// Slot i: free, of unknown state, or with a pair. The number kept then.
fn save_slot(
    names: &[u64],
    cells: &[u32],
    names2: &mut [u64],
    cells2: &mut [u32],
    head2: &mut [u32],
    sizes2: &mut [u32],
    report: &mut [u32],
    from: &mut [u32],
    i: u32,
    kept: u32,
) -> u32
    requires names2_len_bound { length names2.old ≤ most_names }
    requires null_bound { get_or head2.old 2 null < null }
    requires i_lt_most_slots { i < most_slots }
    requires kept_le_i { kept ≤ i }
    requires slot_ready { SlotReady names.now (lent_tree names2.old cells2.old head2.old sizes2.old) report.old i kept from.old }
    ensures { (salvaging (lent_tree names2.new cells2.new head2.new sizes2.new) result
        report.new
        ≡ salvaged_slot names.now cells.now i
        (salvaging (lent_tree names2.old cells2.old head2.old sizes2.old) kept
        report.old))
        × Sources report.new (i + 1) result from.new }
{
    let state = get(cells, i, STATE);
    if state == FREE {
        put_word(report, i as usize, UNUSED);
        return kept;
    }
    if RED < state {
        put_word(report, i as usize, UNKNOWN);
        return kept;
    }
    save_pair(
        names, cells, names2, cells2, head2, sizes2, report, from, i, kept,
    )
}

// All slots one after the other, into a cleared tree; how many are kept.
fn save_all(
    names: &[u64],
    cells: &[u32],
    names2: &mut [u64],
    cells2: &mut [u32],
    head2: &mut [u32],
    sizes2: &mut [u32],
    report: &mut [u32],
) -> u32
    requires { FitSalvage names.now cells.now (lent_tree names2.old cells2.old head2.old sizes2.old) report.old }
    ensures { salvaging (lent_tree names2.new cells2.new head2.new sizes2.new) result
        report.new
        ≡ salvaged_all names.now cells.now
        (lent_tree names2.old cells2.old head2.old sizes2.old) report.old }
{
    let n = (names.len() / 2) as u32;
    // Form kept: an array of the most words, of which the front is used, since the library has no heap.
    let mut from = [0u32; MOST_SLOTS];
    let mut kept = 0;
    for i in 0..n {
        kept = save_slot(
            names, cells, names2, cells2, head2, sizes2, report, &mut from, i, kept,
        );
    }
    kept
}

// Whether the tree fits and is cleared: it is sound and counts nothing.
fn is_cleared_tree(names: &[u64], cells: &[u32], head: &[u32], sizes: &[u32]) -> bool
    ensures { result ≡ is_cleared_tree (lent_tree names.now cells.now head.now sizes.now) }
{
    match sound(names, cells, head, sizes) {
        Ok(true) => word(head, COUNT, NULL) == 0,
        _ => false,
    }
}

// Whether the second tree is cleared and of the first one's capacity, and the report has a word for each slot.
fn fits_salvage(
    names: &[u64],
    cells: &[u32],
    names2: &[u64],
    cells2: &[u32],
    head2: &[u32],
    sizes2: &[u32],
    report: &[u32],
) -> bool
    ensures { result
        ≡ fits_salvage names.now cells.now
        (lent_tree names2.now cells2.now head2.now sizes2.now) report.now }
{
    if names.len() != names2.len() {
        return false;
    }
    if cells.len() != cells2.len() {
        return false;
    }
    if report.len() < names.len() / 2 {
        return false;
    }
    is_cleared_tree(names2, cells2, head2, sizes2)
}

// Each slot with state 1 or 2 whose pair is in no lower kept slot is inserted into the second tree, and the report has a word for each
// slot; how many slots are kept. A refusal writes nothing.
pub fn salvage(
    names: &[u64],
    cells: &[u32],
    names2: &mut [u64],
    cells2: &mut [u32],
    head2: &mut [u32],
    sizes2: &mut [u32],
    report: &mut [u32],
) -> Result<u32, Unfit>
    ensures { salvaged (salvage_of result)
        (lent_tree names2.new cells2.new head2.new sizes2.new) report.new
        ≡ salvages names.now cells.now
        (lent_tree names2.old cells2.old head2.old sizes2.old) report.old }
{
    if !fits_salvage(names, cells, names2, cells2, head2, sizes2, report) {
        return Err(Unfit);
    }
    Ok(save_all(names, cells, names2, cells2, head2, sizes2, report))
}
