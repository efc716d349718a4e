// The counts: a line to each kind of trial.

// The kinds of trials, and all of them together.
#[derive(Clone, Copy)]
pub enum Kind {
    List, // bins that may be moved: from a list, from a tree, and those with a half of one hash
    ListOfOneHash,
    Tree,
    TreeOfOneHash,
    Slices, // refusals: slices that do not fit, no such table, a word that is damaged
    Table,
    Word,
    Last, // a bin that cannot move: no next table, no such bin, Moved already, its parent not Moved
    Bin,
    Gone,
    Parent,
    Finish, // all bins
    All,
}

// What is counted of a kind.
#[derive(Clone, Copy)]
pub struct Count {
    pub tried: u32,
    pub refused: u32,
    pub moved: u32, // the entries
    pub differences: u32,
}

pub type Counts = [Count; 13];

// Nothing is counted.
pub fn none() -> Counts {
    [Count {
        tried: 0,
        refused: 0,
        moved: 0,
        differences: 0,
    }; 13]
}

// A trial in the line of a kind.
fn add(counts: &mut Counts, kind: Kind, refused: bool, moved: u32, right: bool) {
    if let Some(count) = counts.get_mut(kind as usize) {
        count.tried = std::num::wrapping_add_u32(count.tried, 1);
        count.refused = std::num::wrapping_add_u32(count.refused, u32::from(refused));
        count.moved = std::num::wrapping_add_u32(count.moved, moved);
        count.differences = std::num::wrapping_add_u32(count.differences, u32::from(!right));
    }
}

// A trial that told so many entries, or was refused, and whether all was right.
pub fn tried(counts: &mut Counts, kind: Kind, refused: bool, moved: u32, right: bool) {
    add(counts, kind, refused, moved, right);
    add(counts, Kind::All, refused, moved, right);
}
