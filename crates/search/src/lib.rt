// Searches in bytes of brackets for where their running sum falls below 0.
#![tactic(auto)]

ghost use Rattle.std.specs.Prelude.{◌≡◌};
ghost use Rattle.search.specs.Searching.{is_within, not_started, forward_found, backward_found};

use sums::{search_back, search_on};

mod sums;

// Where a search ends, whether the sum falls below 0 there, and whether it is 0 there. Not an enum: the place is told in each case, and a caller
// asks for one case alone, so a match would say no more than a flag.
#[derive(Clone, Copy)]
pub struct Found {
    pub at: usize,
    pub fell: bool,
    pub closed: bool,
}

// The bits lie in order in bytes that are no more than those of the largest tree.
fn in_order(bytes: usize, from: usize, end: usize) -> bool
    ensures { result ≡ is_within bytes from end }
{
    bytes <= 250000 && end <= 8 * bytes && from <= end
}

// What is answered where the bits are not in order.
fn not_started(from: usize) -> Found
    ensures { result ≡ not_started from }
{
    Found {
        at: from,
        fell: false,
        closed: false,
    }
}

// From one bit on to another, or to behind the closing at which the sum falls: an opening adds 1, a closing takes 1 away. Bits that are not in order
// are answered with the start, neither fallen nor closed.
#[tactic(auto, unfolding(crate::specs::Searching::forward_found))]
pub fn forward(tree: &[u8], from: usize, end: usize) -> Found
    ensures { result ≡ forward_found tree.now from end }
{
    if in_order(tree.len(), from, end) {
        return search_on(tree, from, end).found();
    }
    not_started(from)
}

// From a bit back to bit 0, or to the opening at which the sum falls: a closing adds 1, an opening takes 1 away. A place beyond the end of the
// bytes is answered with itself, neither fallen nor closed.
#[tactic(auto, unfolding(crate::specs::Searching::backward_found))]
pub fn backward(tree: &[u8], from: usize) -> Found
    ensures { result ≡ backward_found tree.now from }
{
    if in_order(tree.len(), 0, from) {
        return search_back(tree, from).found();
    }
    not_started(from)
}
