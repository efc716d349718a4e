// The check of one tree from its root, T3 to T6 and T8 of its slots in one walk, and the number of its slots.
ghost use Rattle.std.specs.Prelude.{◌≡◌, ◌<◌, ◌≤◌};
ghost use Rattle.tree_rules.specs.Rules.{stands, follows, obeyed, obeyed_sized, tree_size, in_use, is_calm};
ghost use Rattle.tree_rules.specs.Sizes.{has_size};
ghost use Rattle.tree.specs.Rules.{rest_of, size_of, part_of, joined, judged, deepest_of};

use slots::{
    BLACK, HASH, KEY, LEFT, NULL, PARENT, RED, RIGHT, STATE, comes_before, get, is_red, name, word,
};

// Slot i is black or red.
fn is_coloured(cells: &[u32], i: u32) -> bool
    ensures { result ≡ in_use cells.now i }
{
    let state = get(cells, i, STATE);
    state == BLACK || state == RED
}

// Slot i stands under q, is black or red, and its two children, if any, are two.
#[tactic(auto, unfolding(tree_rules::specs::Rules::stands))]
fn stand(cells: &[u32], q: u32, i: u32) -> bool
    ensures { result ≡ stands cells.now q i }
{
    let l = get(cells, i, LEFT);
    get(cells, i, PARENT) == q && is_coloured(cells, i) && (l == NULL || l != get(cells, i, RIGHT))
}

// The pair of slot m comes before that of slot i, or m is null: none was read before.
#[tactic(auto, unfolding(tree_rules::specs::Rules::follows))]
fn follow(names: &[u64], m: u32, i: u32) -> bool
    ensures { result ≡ follows names.now m i }
{
    m == NULL
        || comes_before(
            name(names, m, HASH),
            name(names, m, KEY),
            name(names, i, HASH),
            name(names, i, KEY),
        )
}

// Slot i is not red, or none of its children is.
fn is_calm(cells: &[u32], i: u32) -> bool
    ensures { result ≡ is_calm cells.now i }
{
    !is_red(cells, i)
        || (!is_red(cells, get(cells, i, LEFT)) && !is_red(cells, get(cells, i, RIGHT)))
}

// The size stored for slot i is m, where one is stored for it.
#[tactic(auto, unfolding(tree_rules::specs::Sizes::has_size))]
fn has_size(sizes: &[u32], i: u32, m: usize) -> bool
    ensures { result ≡ has_size sizes.now i m }
{
    sizes.len() <= i as usize || word(sizes, i as usize, 0) as usize == m
}

// What a walk down from a link comes to: the visits left, the slot read last, and how many black slots every way down meets.
#[derive(Clone, Copy)]
struct Part {
    rest: usize,
    last: u32,
    blacks: usize,
}

// What hangs from slot i, whose own rules hold, where there were so many visits: both parts below it meet as many black slots, and
// its size is the number of visits spent.
fn join(
    cells: &[u32],
    sizes: &[u32],
    i: u32,
    visits: usize,
    lefts: Part,
    rights: Part,
) -> Option<Part>
    requires spent { rights.rest ≤ visits }
    requires few { lefts.blacks < 18446744073709551615 }
    ensures { part_of result
        ≡ joined cells.now sizes.now i visits lefts.blacks rights.rest rights.last rights.blacks }
{
    if lefts.blacks != rights.blacks {
        return None;
    }
    let sized = has_size(sizes, i, visits - rights.rest);
    if !sized {
        return None;
    }
    let red = is_red(cells, i);
    if red {
        return Some(rights);
    }
    Some(Part {
        blacks: rights.blacks + 1,
        ..rights
    })
}

// T3 to T6 and T8 in one walk, since a slot's words are read once for all five: from the link i under q, where last was read
// last, at most so deep and with so many visits. The visits that a slot's subtree took are the size that it is to have. None
// where a rule is broken.
fn walk(
    names: &[u64],
    cells: &[u32],
    sizes: &[u32],
    q: u32,
    last: u32,
    i: u32,
    depth: usize,
    visits: usize,
) -> Option<Part>
    ensures { part_of result ≡ judged names.now cells.now sizes.now q last i depth visits }
{
    if i == NULL {
        return Some(Part {
            rest: visits,
            last,
            blacks: 0,
        });
    }
    if names.len() / 2 <= i as usize {
        return None;
    }
    if visits == 0 {
        return None;
    }
    if depth == 0 {
        return None;
    }
    let upright = stand(cells, q, i);
    if !upright {
        return None;
    }
    let calm = is_calm(cells, i);
    if !calm {
        return None;
    }
    let l = get(cells, i, LEFT);
    let below = if l == NULL {
        Some(Part {
            rest: visits - 1,
            last,
            blacks: 0,
        })
    } else {
        walk(names, cells, sizes, i, last, l, depth - 1, visits - 1)
    };
    let lefts = below?;
    let rising = follow(names, lefts.last, i);
    if !rising {
        return None;
    }
    let r = get(cells, i, RIGHT);
    let after = if r == NULL {
        Some(Part {
            rest: lefts.rest,
            last: i,
            blacks: 0,
        })
    } else {
        walk(names, cells, sizes, i, i, r, depth - 1, lefts.rest)
    };
    let rights = after?;
    join(cells, sizes, i, visits, lefts, rights)
}

// So deep a tree that obeys the rules can be at most: 65 black slots on each way down would take more slots than a word
// counts, so a way has at most 64, with one red before, between and after them.
const DEEPEST: usize = 129;

// How deep a walk over n slots may have to go. Words that are no tree's end it there, so that it needs little stack.
fn deepest(n: usize) -> usize
    ensures { result ≡ deepest_of n }
{
    n.min(DEEPEST)
}

// T3 to T6 of the tree from root, and T8 of its slots, with so many visits; the visits left, or none where a rule is broken.
fn survey_sized(
    names: &[u64],
    cells: &[u32],
    sizes: &[u32],
    root: u32,
    visits: usize,
) -> Option<usize>
    ensures { rest_of result ≡ obeyed_sized names.now cells.now sizes.now root visits }
{
    let red = is_red(cells, root);
    if red {
        return None;
    }
    let depth = deepest(names.len() / 2);
    let whole = walk(names, cells, sizes, NULL, NULL, root, depth, visits)?;
    Some(whole.rest)
}

// The same of a tree that has no sizes: T3 to T6.
pub fn survey(names: &[u64], cells: &[u32], root: u32, visits: usize) -> Option<usize>
    ensures { rest_of result ≡ obeyed names.now cells.now root visits }
{
    survey_sized(names, cells, &cells[0..0], root, visits)
}

// The number of slots of the tree from root, where it obeys T3 to T6 and each has its size; else none.
pub fn tree_size(names: &[u64], cells: &[u32], sizes: &[u32], root: u32) -> Option<usize>
    ensures { size_of result ≡ tree_size names.now cells.now sizes.now root }
{
    let n = names.len() / 2;
    let rest = survey_sized(names, cells, sizes, root, n)?;
    Some(n - rest)
}
