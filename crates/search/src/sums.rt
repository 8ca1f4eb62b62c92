// A search on or back: bit by bit to a byte's edge, by whole bytes, each as two half bytes, and bit by bit again.
ghost use Rattle.std.specs.Prelude.{◌≡◌, ◌+◌, ◌-◌, ◌*◌, ◌%◌, ◌≤◌, ◌<◌, pos, ◌+ℤ◌, ◌-ℤ◌, length};
ghost use Rattle.std.specs.Int.Signed.{mag};
ghost use Rattle.refusal.specs.Conditions.{bit_of};
ghost use Rattle.excess.specs.Excess.{excesses, min_excesses, half_excess, half_min_excess};
ghost use Rattle.search.specs.Searching.{walk_on, walk_back};
ghost use Rattle.search.specs.Steps.{is_minus, turned_sum, found_at, ReadyOn, GoingOn, WentOn, ReadyBack, GoingBack, WentBack};

use crate::Found;
use excess::{bit, half_excesses, half_min_excesses};

// For each half byte the lowest running sum of its brackets, and the sum of them. In this order: the other way round a long search takes a tenth
// longer.
#[derive(Drop)]
struct Halves {
    lowest: [i32; 16],
    sums: [i64; 16],
    ghost lowest_known: { lowest ≡ min_excesses },
    ghost sums_known: { sums ≡ excesses },
}

impl Halves {
    fn new() -> Halves {
        Halves {
            lowest: half_min_excesses(),
            sums: half_excesses(),
        }
    }
}

// The running sum of the brackets that a search has passed.
#[derive(Clone, Copy)]
pub(crate) struct Sum(i32);

impl Sum {
    fn fell(self) -> bool
        requires { mag self.0 ≤ 3000000 }
        ensures { result ≡ is_minus self.0 }
    {
        self.0 < 0
    }

    // Over a bracket that raises the sum, or lowers it.
    fn turned(self, up: bool) -> Sum
        requires { (self.0 ≡ pos (mag self.0)) × (mag self.0 ≤ 2000000) }
        ensures { result.0 ≡ turned_sum up (mag self.0) }
    {
        Sum(if up { self.0 + 1 } else { self.0 - 1 })
    }

    // Falls below 0 in a half byte, from that at its start.
    fn falls_in(self, half: usize, halves: &Halves) -> bool
        requires { (mag self.0 ≤ 3000000) × (half < 16) }
        ensures { result ≡ is_minus (self.0 +ℤ half_min_excess half) }
    {
        self.0 + halves.lowest[half] < 0
    }

    // At the end of a half byte, from that at its start.
    fn at_end(self, half: usize, halves: &Halves) -> Sum
        requires { (mag self.0 ≤ 3000000) × (half < 16) }
        ensures { result.0 ≡ self.0 +ℤ half_excess half }
    {
        Sum(self.0 + halves.sums[half] as i32)
    }

    // At the start of a half byte, from that at its end.
    fn at_start(self, half: usize, halves: &Halves) -> Sum
        requires { (mag self.0 ≤ 3000000) × (half < 16) }
        ensures { result.0 ≡ self.0 -ℤ half_excess half }
    {
        Sum(self.0 - halves.sums[half] as i32)
    }
}

// A bit that a search has come to, and the sum there.
#[derive(Clone, Copy)]
pub(crate) struct Search {
    at: usize,
    sum: Sum,
}

impl Search {
    // What it has found that fell, or came to its end.
    pub(crate) fn found(self) -> Found
        requires { mag self.sum.0 ≤ 2000000 }
        ensures { result ≡ found_at self.at self.sum.0 }
    {
        Found {
            at: self.at,
            fell: self.sum.fell(),
            closed: self.sum.0 == 0,
        }
    }
}

// Goes on bit by bit to a place, or to where the sum falls below 0.
fn bits_on(tree: &[u8], start: Search, end: usize) -> Search
    requires { ReadyOn tree.now start.at end start.sum.0 }
    ensures { WentOn tree.now start.at end start.sum.0 result.at result.sum.0 }
{
    let mut sum = start.sum;
    for k in start.at..end {
        sum = sum.turned(bit(tree[k / 8], k));
        if sum.fell() {
            return Search { at: k + 1, sum };
        }
    }
    Search { at: end, sum }
}

// Goes on by whole bytes, from one to another, or to the start of one in which the sum falls below 0.
fn pass_on(tree: &[u8], first: usize, stop: usize, start: Sum, halves: &Halves) -> Search
    requires { ReadyOn tree.now (8 * first) (8 * stop) start.0 }
    ensures { (result.at % 8 ≡ 0) × GoingOn tree.now (8 * first) (8 * stop) start.0 result.at result.sum.0 }
{
    let mut sum = start;
    for j in first..stop {
        let byte = usize::from(tree[j]);
        if sum.falls_in(byte % 16, halves) {
            return Search { at: 8 * j, sum };
        }
        let middle = sum.at_end(byte % 16, halves);
        if middle.falls_in(byte / 16, halves) {
            return Search { at: 8 * j, sum };
        }
        sum = middle.at_end(byte / 16, halves);
    }
    Search { at: 8 * stop, sum }
}

// The same, four bytes at a time while there are four: the compiler writes the four one behind the other. A `while`, since with the groups of four
// counted beforehand a search takes 1.08 times as long (docs/PERFORMANCE.md).
fn bytes_on(tree: &[u8], first: usize, stop: usize, start: Sum, halves: &Halves) -> Search
    requires { ReadyOn tree.now (8 * first) (8 * stop) start.0 }
    ensures { (result.at % 8 ≡ 0) × GoingOn tree.now (8 * first) (8 * stop) start.0 result.at result.sum.0 }
{
    let mut sum = start;
    let mut j = first;
    while j + 4 <= stop {
        let four = pass_on(tree, j, j + 4, sum, halves);
        j += 4;
        if four.at != 8 * j {
            return four;
        }
        sum = four.sum;
    }
    pass_on(tree, j, stop, sum, halves)
}

// Passes the lower half of the byte that it stands at, unless it ends behind the end or the sum falls below 0 in it.
fn half_on(tree: &[u8], s: Search, end: usize, halves: &Halves) -> Search
    requires { (s.at % 8 ≡ 0) × ReadyOn tree.now s.at end s.sum.0 }
    ensures { GoingOn tree.now s.at end s.sum.0 result.at result.sum.0 }
{
    if s.at + 4 > end {
        return s;
    }
    let half = usize::from(tree[s.at / 8]) % 16;
    if s.sum.falls_in(half, halves) {
        return s;
    }
    Search {
        at: s.at + 4,
        sum: s.sum.at_end(half, halves),
    }
}

// Goes on from a bit to another, or to where the running sum falls below 0.
pub(crate) fn search_on(tree: &[u8], from: usize, end: usize) -> Search
    requires { (length tree.now ≤ 250000) × (end ≤ 8 * length tree.now) × (from ≤ end) }
    ensures { (found_at result.at result.sum.0 ≡ walk_on (bit_of tree.now) (end - from) from 0) × (mag result.sum.0 ≤ 2000000) }
{
    let start = Search {
        at: from,
        sum: Sum(0),
    };
    let near = bits_on(tree, start, from.next_multiple_of(8).min(end));
    if near.at == end {
        return near;
    }
    if near.sum.fell() {
        return near;
    }
    let halves = Halves::new();
    let far = bytes_on(tree, near.at / 8, end / 8, near.sum, &halves);
    bits_on(tree, half_on(tree, far, end, &halves), end)
}

// Goes back bit by bit to a place, or to where the sum falls below 0.
fn bits_back(tree: &[u8], start: Search, end: usize) -> Search
    requires { ReadyBack tree.now start.at end start.sum.0 }
    ensures { WentBack tree.now start.at end start.sum.0 result.at result.sum.0 }
{
    let mut sum = start.sum;
    for k in (end..start.at).rev() {
        sum = sum.turned(!bit(tree[k / 8], k));
        if sum.fell() {
            return Search { at: k, sum };
        }
    }
    Search { at: end, sum }
}

// Goes back by whole bytes from one to byte 0, or to behind one in which the sum falls below 0.
fn pass_back(tree: &[u8], first: usize, start: Sum, halves: &Halves) -> Search
    requires { ReadyBack tree.now (8 * first) 0 start.0 }
    ensures { GoingBack tree.now (8 * first) 0 start.0 result.at result.sum.0 }
{
    let mut sum = start;
    for j in (0..first).rev() {
        let byte = usize::from(tree[j]);
        let upper = sum.at_start(byte / 16, halves);
        if upper.falls_in(byte / 16, halves) {
            return Search { at: 8 * j + 8, sum };
        }
        let lower = upper.at_start(byte % 16, halves);
        if lower.falls_in(byte % 16, halves) {
            return Search { at: 8 * j + 8, sum };
        }
        sum = lower;
    }
    Search { at: 0, sum }
}

// Goes back from a bit to bit 0, or to where the running sum falls below 0.
pub(crate) fn search_back(tree: &[u8], from: usize) -> Search
    requires { (length tree.now ≤ 250000) × (from ≤ 8 * length tree.now) }
    ensures { (found_at result.at result.sum.0 ≡ walk_back (bit_of tree.now) from 0) × (mag result.sum.0 ≤ 2000000) }
{
    let start = Search {
        at: from,
        sum: Sum(0),
    };
    let near = bits_back(tree, start, from / 8 * 8);
    if near.sum.fell() {
        return near;
    }
    let far = pass_back(tree, near.at / 8, near.sum, &Halves::new());
    bits_back(tree, far, 0)
}
