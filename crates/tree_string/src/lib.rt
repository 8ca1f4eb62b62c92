// The string of a tree, written in a lent buffer.
#![tactic(auto)]

ghost use Rattle.std.specs.Prelude.{◌≡◌, cond, ◌%◌, length};
ghost use Rattle.refusal.specs.Numbers.{verdict_number};
ghost use Rattle.refusal.specs.Conditions.{byte_bit, tree_refusal};
ghost use Rattle.tree_string.specs.TreeString.{tree_string, StringWritten};
ghost use Rattle.tree_string.specs.Steps.{numbered_of, bracket_numbered, Numberable};

use excess::bit;
use refusal::Refusal;

// 1 where the bit of a byte with weight 2 to the power (m mod 8) is an opening, 0 where it is a closing.
fn opening_at(byte: u8, m: usize) -> usize
    ensures { result ≡ cond (byte_bit byte (m % 8)) 1 0 }
{
    usize::from(bit(byte, m))
}

// How many positions have no number yet, how many numbers wait for their opening, and the number of the next closing.
#[derive(Clone, Copy)]
struct Numbering {
    positions: usize,
    waiting: usize,
    number: usize,
}

// One bracket, from right to left, while not all closings are numbered. A closing has the next number, which waits in the first free entry.
// An opening is the last position that has no number, and takes the number that waits last. Both entries are stored whichever the bracket
// is, so that no branch depends on it: the other one is free.
fn number_bracket(opening: usize, s: Numbering, symbols: &mut [u32]) -> Numbering
    requires { Numberable opening (numbered_of s symbols.old) }
    ensures { numbered_of result symbols.new ≡ bracket_numbered opening (numbered_of s symbols.old) }
{
    let closing = 1 - opening;
    let last = s.waiting - opening;
    symbols[s.positions - 1] = symbols[last];
    symbols[last] = s.number as u32;
    Numbering {
        positions: s.positions - opening,
        waiting: last + closing,
        number: s.number + closing,
    }
}

// Writes the string of a tree that is not refused, in one pass from the last bracket. Where all closings are numbered, openings alone are
// left, and their numbers stand where they belong. Each whole byte is read once.
fn fill(n: usize, tree: &[u8], symbols: &mut [u32])
    requires { (tree_refusal n tree.now ≡ 0) × (length symbols.old ≡ n) }
    ensures { symbols.new ≡ tree_string n tree.now }
{
    let mut s = Numbering {
        positions: n,
        waiting: 0,
        number: 0,
    };
    for k in (0..2 * (n % 4)).rev() {
        if s.number == n {
            return;
        }
        s = number_bracket(opening_at(tree[n / 4], k), s, symbols);
    }
    for &byte in tree[..n / 4].iter().rev() {
        for m in (0..8).rev() {
            if s.number == n {
                return;
            }
            s = number_bracket(opening_at(byte, m), s, symbols);
        }
    }
}

// Writes the string of a tree of n positions: refusals 1, 2, 3, 6, 7, 8.
pub fn write(n: usize, tree: &[u8], symbols: &mut [u32]) -> Result<(), Refusal>
    ensures { StringWritten n tree.now symbols.old symbols.new (verdict_number result) }
{
    if n > 1000000 {
        return Err(Refusal::TooLong);
    }
    if symbols.len() != n {
        return Err(Refusal::TableLength);
    }
    brackets::verdict_on(n, tree)?;
    fill(n, tree, symbols);
    Ok(())
}
