// Headers are counted: those that are not null with count 0 are as many as the bins that name one.
ghost use Rattle.std.specs.Prelude.{◌≡◌, length};
ghost use Rattle.sets.specs.Bins.{bin_as};
ghost use Rattle.tree_rules.specs.Chain.{tally};
ghost use Rattle.set_rules.specs.Accepting.{is_blank, filled, naming, headers_fine};
ghost use Rattle.set_rules.specs.Accepting.{names_header};

use crate::bin::{Bin, bin_of, header};
use slots::{COUNT, FIRST, NULL, ROOT};

// A header is null with count 0.
#[tactic(auto, unfolding(set_rules::specs::Accepting::is_blank))]
fn is_blank(root: u32, first: u32, count: u32) -> bool
    ensures { result ≡ is_blank root first count }
{
    root == NULL && first == NULL && count == 0
}

// 1 for a header that is not null with count 0, 0 for one that is.
#[tactic(auto, unfolding(set_rules::specs::Accepting::filled))]
fn filled_header(heads: &[u32], h: u32) -> u32
    ensures { result ≡ filled heads.now h }
{
    let root = header(heads, h, ROOT);
    let first = header(heads, h, FIRST);
    let count = header(heads, h, COUNT);
    !is_blank(root, first, count) as u32
}

// The number of the n headers that are not null with count 0.
#[tactic(auto, unfolding(tree_rules::specs::Chain::tally), using(crate::proofs::Steps::filled_one, crate::proofs::Steps::tally_next))]
fn filled_headers(heads: &[u32], n: u32) -> u32
    ensures { result ≡ tally n (filled heads.now) }
{
    let mut count = 0;
    for h in 0..n {
        count += filled_header(heads, h);
    }
    count
}

// 1 for a bin that names a header, 0 for any other.
fn names_header(bin: Bin) -> usize
    ensures { result ≡ names_header (bin_as bin) }
{
    matches!(bin, Bin::Tree(_)) as usize
}

// The number of bins that name a header, in a set of n slots and h headers.
#[tactic(auto, unfolding(tree_rules::specs::Chain::tally), using(crate::proofs::Steps::names_one, crate::proofs::Steps::tally_next))]
fn naming_bins(bins: &[u32], n: usize, h: usize) -> usize
    ensures { result ≡ tally (length bins.now) (naming n h bins.now) }
{
    let mut count = 0;
    for word in bins {
        count += names_header(bin_of(n, h, *word));
    }
    count
}

// As many headers are not null with count 0 as bins name one, in a set of n slots and h headers.
#[tactic(auto, unfolding(set_rules::specs::Accepting::headers_fine))]
pub(crate) fn headers_fine(heads: &[u32], bins: &[u32], n: usize, h: u32) -> bool
    ensures { result ≡ headers_fine n h heads.now bins.now }
{
    let filled = filled_headers(heads, h);
    let naming = naming_bins(bins, n, h as usize);
    filled as usize == naming
}
