// lookup: the slot that has a pair, from a table down the forwarded ones.
ghost use Rattle.std.specs.Prelude.{◌≡◌, ◌+◌, ◌-◌, ◌<◌, ◌≤◌, length, get_or};
ghost use Rattle.tree_rules.specs.Find.{slots_of, counted as countedLooks};
ghost use Rattle.set_rules.specs.Words.{bin_of, lent_set};
ghost use Rattle.set_rules.specs.Words.{bini as home};
ghost use Rattle.sets.specs.Bins.{bin_as};
ghost use Rattle.tree.specs.Find.{searched_of};
ghost use Rattle.set_rules.specs.Lookup.{has_pair, sought_in_list, forwarded, lookups, lookups_fit};
ghost use Rattle.sets.specs.Lookups.{looked_of, no_table_of};

use crate::bin::{Bin, bin_from, header, index};
use crate::fit::{bins_before, fit_set, length_at};
use slots::answer::{Answer, Answers, refused};
use slots::{HASH, KEY, NEXT, NULL, ROOT, get, name};
use tree::find::{Found, find_tree_node};

// Slot p has the pair (hash, key).
#[tactic(auto, unfolding(set_rules::specs::Lookup::has_pair))]
fn has_pair(names: &[u64], p: u32, hash: u64, key: u64) -> bool
    ensures { result ≡ has_pair names.now p hash key }
{
    name(names, p, HASH) == hash && name(names, p, KEY) == key
}

// The slot of the list from first that has the pair. Lost where a link followed is neither null nor a slot, and where one slot
// more than there are would be visited.
fn find_in_list(names: &[u64], cells: &[u32], first: u32, hash: u64, key: u64) -> Found<usize>
    ensures { searched_of result
        ≡ countedLooks (sought_in_list names.now cells.now (slots_of names.now) first hash key) }
{
    let slots = names.len() / 2;
    let mut p = first;
    for looks in 0..slots {
        if p == NULL {
            return Found::Nothing(looks);
        }
        if slots <= p as usize {
            return Found::Lost(looks);
        }
        let has = has_pair(names, p, hash, key);
        if has {
            return Found::At(p, looks + 1);
        }
        p = get(cells, p, NEXT);
    }
    if p == NULL {
        return Found::Nothing(slots);
    }
    Found::Lost(slots)
}

// The bin for a hash of a table of so many bins that begin at `from`, in a set of n slots and h headers.
#[tactic(auto, unfolding(set_rules::specs::Words::bini))]
fn home_bin(bins: &[u32], n: usize, h: usize, from: usize, length: u32, hash: u64) -> Bin
    ensures { bin_as result ≡ bin_of n h (get_or bins.now (from + home length hash) 0) }
{
    let i = index(length, hash);
    bin_from(bins, n, h, from, i)
}

// The loop over forwarded tables: it leaves with the answer at the first bin that is not Moved. Moved in the last table leads nowhere.
fn search(
    lengths: &[u32],
    bins: &[u32],
    heads: &[u32],
    names: &[u64],
    cells: &[u32],
    table: u32,
    hash: u64,
    key: u64,
) -> Found<usize>
    requires { (length lengths.now ≤ 8) × (table < length lengths.now) }
    ensures { searched_of result
        ≡ countedLooks (forwarded (length lengths.now - table)
        (lent_set lengths.now bins.now heads.now names.now
        cells.now) table hash key) }
{
    let n = names.len() / 2;
    let h = heads.len() / 3;
    let mut from = bins_before(lengths, table);
    for k in table..lengths.len() as u32 {
        let length = length_at(lengths, k);
        let bin = home_bin(bins, n, h, from, length, hash);
        match bin {
            Bin::Empty => return Found::Nothing(0),
            Bin::Moved => from += length as usize,
            Bin::List(first) => return find_in_list(names, cells, first, hash, key),
            Bin::Tree(at) => {
                let root = header(heads, at, ROOT);
                return find_tree_node(names, cells, root, hash, key);
            }
            Bin::Bad => return Found::Lost(0),
        }
    }
    Found::Lost(0)
}

// The loop alone, for slices that are known to fit: nothing is asked of their lengths but that there are at most eight tables, and
// the one to begin with.
pub fn lookup_fit(
    lengths: &[u32],
    bins: &[u32],
    heads: &[u32],
    names: &[u64],
    cells: &[u32],
    table: u32,
    hash: u64,
    key: u64,
) -> Found<usize>
    ensures { searched_of result
        ≡ countedLooks (lookups_fit (lent_set lengths.now bins.now heads.now names.now
        cells.now) table hash key) }
{
    if 8 < lengths.len() {
        return Found::Lost(0);
    }
    if lengths.len() <= table as usize {
        return Found::Lost(0);
    }
    search(lengths, bins, heads, names, cells, table, hash, key)
}

// Why a lookup or a walk does not begin.
#[derive(Clone, Copy, PartialEq, Eq)]
pub enum NoTable {
    Unfit, // 1
    Unknown, // 10
}

impl Answers for NoTable {
    ghost told = { no_table_of };

    fn answer(self) -> Answer {
        match self {
            NoTable::Unfit => refused(1),
            NoTable::Unknown => refused(10),
        }
    }
}

// The slot that has the pair (hash, key), from table on.
// Form kept: the two tests stand here and in start, since the rules' lookups and starts each ask them with an answer of its own.
pub fn lookup(
    lengths: &[u32],
    bins: &[u32],
    heads: &[u32],
    names: &[u64],
    cells: &[u32],
    table: u32,
    hash: u64,
    key: u64,
) -> Result<Found<u32>, NoTable>
    ensures { looked_of result
        ≡ countedLooks (lookups (lent_set lengths.now bins.now heads.now names.now
        cells.now) table hash key) }
{
    let fits = fit_set(lengths, bins, heads, names, cells);
    if !fits {
        return Err(NoTable::Unfit);
    }
    if lengths.len() <= table as usize {
        return Err(NoTable::Unknown);
    }
    let found = search(lengths, bins, heads, names, cells, table, hash, key);
    Ok(found.in_a_word())
}
