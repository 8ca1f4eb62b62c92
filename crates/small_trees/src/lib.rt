// The trees of a small size, one after the other in the same buffer.
#![tactic(auto)]

ghost use Rattle.std.specs.Prelude.{◌≡◌, ◌-◌, ◌*◌, ◌%◌, ◌^◌, ◌≤◌, ◌<◌, min, length, Ok};
ghost use Rattle.suffix.specs.Tree.{byte_of};
ghost use Rattle.refusal.specs.Numbers.{verdict_number};
ghost use Rattle.refusal.specs.Conditions.{byte_bit, tree_refusal};
ghost use Rattle.small_trees.specs.Answers.{size_outside, going_of, FirstGiven, NextGiven};
ghost use Rattle.small_trees.specs.Steps.{changed_bit, changed_tree, Stepped};

use excess::is_open;
use refusal::Refusal;
use suffix::tree_length;

// What came of going on from a tree: the next one is in the buffer, or the tree is the last.
#[derive(Clone, Copy, PartialEq, Eq)]
pub enum Step {
    Next,
    Last,
}

fn is_outside(size: usize) -> bool
    ensures { result ≡ size_outside size }
{
    !(1..=12).contains(&size)
}

// The weight of the first bit of byte j that is not before bit q, 256 where all are.
fn weight_before(q: usize, j: usize) -> u32
    requires { j < 3 }
    ensures { result ≡ 2 ^ min (q - 8 * j) 8 }
{
    if q <= 8 * j {
        return 1;
    }
    if q >= 8 * j + 8 {
        return 256;
    }
    1u32 << (q - 8 * j)
}

// Byte j of changed brackets: its bits before bit k stay, and after them there are openings from `from` on and before `to`.
fn changed_byte(byte: u8, j: usize, k: usize, from: usize, to: usize) -> u8
    requires { (j < 3) × (k ≤ from) × (from ≤ to) }
    ensures { result ≡ byte_of (λ q. changed_bit (byte_bit byte (q % 8)) k from to q) j }
{
    let kept = byte as u32 % weight_before(k, j);
    (kept + weight_before(to, j) - weight_before(from, j)) as u8
}

// Changes the brackets from bit k on; the bytes before its byte stay.
fn change(tree: &mut [u8], k: usize, from: usize, to: usize)
    requires { (length tree.old ≤ 3) × (k ≤ from) × (from ≤ to) }
    ensures { tree.new ≡ changed_tree tree.old k from to }
{
    for j in k / 8..tree.len() {
        tree[j] = changed_byte(tree[j], j, k, from, to);
    }
}

// Writes the first tree of a size: refusals 14, 3.
pub fn first(size: usize, tree: &mut [u8]) -> Result<(), Refusal>
    ensures { FirstGiven size tree.old tree.new (verdict_number result) }
{
    if is_outside(size) {
        return Err(Refusal::SizeOutside);
    }
    if tree.len() != tree_length(size) {
        return Err(Refusal::TreeLength);
    }
    change(tree, 0, 0, size);
    Ok(())
}

// Goes on from a tree that is not refused: the last opening before which something is open becomes a closing, and after it come the openings
// that are left and then closings. Something is open before bit k where of the 2 size - k brackets from there on fewer than half are openings.
fn go_on(size: usize, tree: &mut [u8]) -> Step
    requires { (size ≤ 12) × (tree_refusal size tree.old ≡ 0) }
    ensures { Stepped size tree.old tree.new (going_of (Ok result)) }
{
    let mut openings = 0;
    for k in (0..2 * size).rev() {
        if is_open(tree, k) {
            openings += 1;
            if k + 2 * openings < 2 * size {
                change(tree, k, k + 1, k + 1 + openings);
                return Step::Next;
            }
        }
    }
    Step::Last
}

// Writes the tree after a tree, or tells that it is the last: refusals 14, 3, 6, 7, 8.
pub fn next(size: usize, tree: &mut [u8]) -> Result<Step, Refusal>
    ensures { NextGiven size tree.old tree.new (going_of result) }
{
    if is_outside(size) {
        return Err(Refusal::SizeOutside);
    }
    brackets::verdict_on(size, tree)?;
    Ok(go_on(size, tree))
}
