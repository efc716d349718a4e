// What an accepted set adds to the totals: slot by slot, and bin word by bin word.
ghost use Rattle.std.specs.Prelude.{◌≡◌, [], ◌/◌, ◌≤◌, length};
ghost use Rattle.set_rules.specs.Words.{lent_set, Fit};
ghost use Rattle.tree.specs.Find.{searched_of};
ghost use Rattle.sets.specs.Bins.{bin_as};
ghost use Rattle.figure_rules.specs.Tally.{entry_tallied, slot_looks, slot_tallied, slots_tallied, bin_tallied, bins_tallied, set_tallied};
ghost use Rattle.tally.specs.Room.{RoomIn};

use crate::totals::{ENTRIES, LISTS, LOOKS, SETS, TREES, add_to, row_word};
use sets::bin::{Bin, bin_of};
use sets::lookup::lookup_fit;
use slots::{FREE, HASH, KEY, STATE, get, name};
use tree::find::Found;

// How many slots a search looked at.
fn looks_of(found: Found<usize>) -> usize
    ensures { result ≡ (searched_of found).looks }
{
    match found {
        Found::At(_, looks) | Found::Nothing(looks) | Found::Lost(looks) => looks,
    }
}

// The looks at which the pair of slot x is found from table 0.
fn slot_looks(
    lengths: &[u32],
    bins: &[u32],
    heads: &[u32],
    names: &[u64],
    cells: &[u32],
    x: u32,
) -> usize
    ensures { result
        ≡ slot_looks (lent_set lengths.now bins.now heads.now names.now cells.now)
        x }
{
    let hash = name(names, x, HASH);
    let key = name(names, x, KEY);
    looks_of(lookup_fit(lengths, bins, heads, names, cells, 0, hash, key))
}

// An entry that is found at so many looks.
fn add_entry(totals: &mut [u64], looks: usize)
    requires { RoomIn totals.old 8192 × (looks ≤ 4096) }
    ensures { totals.new ≡ entry_tallied totals.old looks }
{
    add_to(totals, ENTRIES, 1);
    add_to(totals, LOOKS, looks as u64);
    add_to(totals, row_word(looks), 1)
}

// Slot x: a free one adds nothing.
fn add_slot(
    lengths: &[u32],
    bins: &[u32],
    heads: &[u32],
    names: &[u64],
    cells: &[u32],
    totals: &mut [u64],
    x: u32,
)
    requires { RoomIn totals.old 8192
        × (slot_looks (lent_set lengths.now bins.now heads.now names.now cells.now) x ≤ 4096) }
    ensures { totals.new
        ≡ slot_tallied (lent_set lengths.now bins.now heads.now names.now cells.now)
        x totals.old }
{
    if get(cells, x, STATE) == FREE {
        return;
    }
    let looks = slot_looks(lengths, bins, heads, names, cells, x);
    add_entry(totals, looks)
}

// All slots of a set that fits.
fn add_slots(
    lengths: &[u32],
    bins: &[u32],
    heads: &[u32],
    names: &[u64],
    cells: &[u32],
    totals: &mut [u64],
)
    requires { Fit (lent_set lengths.now bins.now heads.now names.now cells.now)
        × (length totals.old ≡ 39)
        × RoomIn totals.old 16793600 }
    ensures { totals.new
        ≡ slots_tallied (lent_set lengths.now bins.now heads.now names.now cells.now)
        (length names.now / 2) totals.old }
{
    for x in 0..names.len() / 2 {
        add_slot(lengths, bins, heads, names, cells, totals, x as u32);
    }
}

// A bin: a list, a tree, or nothing to count.
fn add_bin(totals: &mut [u64], bin: Bin)
    requires { RoomIn totals.old 1 }
    ensures { totals.new ≡ bin_tallied (bin_as bin) totals.old }
{
    match bin {
        Bin::Empty => {}
        Bin::Moved => {}
        Bin::List(_) => add_to(totals, LISTS, 1),
        Bin::Tree(_) => add_to(totals, TREES, 1),
        Bin::Bad => {}
    }
}

// All words of the row of bins.
fn add_bins(bins: &[u32], heads: &[u32], names: &[u64], totals: &mut [u64])
    requires { (length bins.now ≤ 8160) × (length totals.old ≡ 39) × RoomIn totals.old 8192 }
    ensures { totals.new
        ≡ bins_tallied (lent_set [] bins.now heads.now names.now []) (length bins.now)
        totals.old }
{
    let n = names.len() / 2;
    let h = heads.len() / 3;
    for word in bins {
        add_bin(totals, bin_of(n, h, *word));
    }
}

// An accepted set.
pub(crate) fn add_set(
    lengths: &[u32],
    bins: &[u32],
    heads: &[u32],
    names: &[u64],
    cells: &[u32],
    totals: &mut [u64],
)
    requires { Fit (lent_set lengths.now bins.now heads.now names.now cells.now)
        × (length totals.old ≡ 39)
        × RoomIn totals.old 33554432 }
    ensures { totals.new
        ≡ set_tallied (lent_set lengths.now bins.now heads.now names.now cells.now)
        totals.old }
{
    add_to(totals, SETS, 1);
    add_slots(lengths, bins, heads, names, cells, totals);
    add_bins(bins, heads, names, totals)
}
