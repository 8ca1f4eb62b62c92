// Trees of brackets in lent bytes: a verdict on one, and its two tables.
#![tactic(auto)]

ghost use Rattle.std.specs.Prelude.{◌≡◌, ◌≤◌, length};
ghost use Rattle.suffix.specs.Tree.{tree_length};
ghost use Rattle.refusal.specs.Numbers.{verdict_number};
ghost use Rattle.refusal.specs.Conditions.{spare_bit_set, flaw_number, tree_refusal};
ghost use Rattle.shape.specs.Shape.{previous_table, next_table};
ghost use Rattle.brackets.specs.Answers.{ReadBack};
ghost use Rattle.brackets.specs.Steps.{filled_of, bracket_filled, Fillable};

use excess::{bit, is_open};
use refusal::Refusal;
use suffix::tree_length;

#[tactic(auto, using(crate::proofs::Spare::no_spare_bits, crate::proofs::Spare::spare_last))]
fn spare_bit_set(n: usize, tree: &[u8]) -> bool
    requires { (n ≤ 1000000) × (length tree.now ≡ tree_length n) }
    ensures { result ≡ spare_bit_set n tree.now }
{
    let over = n % 4;
    over != 0 && tree[n / 4] >> ((2 * over) as u8) != 0
}

// What whoever wrote the tree got wrong: 6, 7 or 8.
#[tactic(auto, using(shape::proofs::Conditions::flaw_6, crate::proofs::Whole::flaw_fell, crate::proofs::Whole::flaw_closed, crate::proofs::Whole::flaw_open))]
fn flaw(n: usize, tree: &[u8]) -> Result<(), Refusal>
    requires { (n ≤ 1000000) × (length tree.now ≡ tree_length n) }
    ensures { verdict_number result ≡ flaw_number n tree.now }
{
    if spare_bit_set(n, tree) {
        return Err(Refusal::SpareBitSet);
    }
    let found = search::forward(tree, 0, 2 * n);
    if found.fell {
        return Err(Refusal::ClosedTooEarly);
    }
    if found.closed {
        return Ok(());
    }
    Err(Refusal::LeftOpen)
}

// Whether the bytes are a tree of n positions: refusals 1, 3, 6, 7, 8.
#[tactic(auto, using(shape::proofs::Conditions::tree_1, shape::proofs::Conditions::tree_3, shape::proofs::Conditions::tree_flaw))]
pub fn verdict_on(n: usize, tree: &[u8]) -> Result<(), Refusal>
    ensures { verdict_number result ≡ tree_refusal n tree.now }
{
    if n > 1000000 {
        return Err(Refusal::TooLong);
    }
    if tree.len() != tree_length(n) {
        return Err(Refusal::TreeLength);
    }
    flaw(n, tree)
}

// The innermost open position, n where none is open, and how many positions are opened.
#[derive(Clone, Copy)]
struct Open {
    top: u32,
    count: u32,
}

// One bracket: an opening hangs the next position under the innermost open one, a closing ends the innermost open one.
fn fill_bracket(opening: bool, s: Open, previous: &mut [u32], next: &mut [u32]) -> Open
    requires { Fillable opening (filled_of s previous.old next.old) }
    ensures { filled_of result previous.new next.new ≡ bracket_filled opening (filled_of s previous.old next.old) }
{
    let top = s.top as usize;
    if opening {
        previous[s.count as usize] = s.top;
        return Open {
            top: s.count,
            count: s.count + 1,
        };
    }
    next[top] = s.count;
    Open {
        top: previous[top],
        count: s.count,
    }
}

// Fills the tables of a tree that has no flaw, in one pass: the open positions are linked through their previous entries. No bit of a
// whole byte is tested for the end.
fn fill_tables(n: usize, tree: &[u8], previous: &mut [u32], next: &mut [u32])
    requires { (n ≤ 1000000) × (length tree.now ≡ tree_length n) × (length previous.old ≡ n) × (length next.old ≡ n) × (flaw_number n tree.now ≡ 0) }
    ensures { (previous.new ≡ previous_table n tree.now) × (next.new ≡ next_table n tree.now) }
{
    let mut s = Open {
        top: n as u32,
        count: 0,
    };
    for &byte in &tree[..n / 4] {
        for m in 0..8 {
            s = fill_bracket(bit(byte, m), s, previous, next);
        }
    }
    for k in 8 * (n / 4)..2 * n {
        s = fill_bracket(is_open(tree, k), s, previous, next);
    }
}

// Reads a tree of n positions into its two tables: refusals 1, 2, 3, 6, 7, 8.
pub fn read(n: usize, tree: &[u8], previous: &mut [u32], next: &mut [u32]) -> Result<(), Refusal>
    ensures { ReadBack n tree.now (record { previous = previous.old; next = next.old })
        (record { previous = previous.new; next = next.new })
        (verdict_number result) }
{
    if n > 1000000 {
        return Err(Refusal::TooLong);
    }
    if previous.len() != n || next.len() != n {
        return Err(Refusal::TableLength);
    }
    if tree.len() != tree_length(n) {
        return Err(Refusal::TreeLength);
    }
    flaw(n, tree)?;
    fill_tables(n, tree, previous, next);
    Ok(())
}
