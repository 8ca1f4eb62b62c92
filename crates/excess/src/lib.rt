// Bytes of brackets: a bit of them, and, for each half byte, the signed sum and the lowest running sum of its brackets.
#![tactic(auto)]

ghost use Rattle.std.specs.Prelude.{◌≡◌, ◌%◌};
ghost use Rattle.refusal.specs.Conditions.{byte_bit, bit_of};
ghost use Rattle.excess.specs.Excess.{excesses, min_excesses};

use tables::{EXCESS, MIN_EXCESS};

mod tables;

// The signed sums of all half bytes.
pub fn half_excesses() -> [i64; 16]
    ensures { result ≡ excesses }
{
    EXCESS
}

// The lowest running sums of all half bytes, the empty start included.
pub fn half_min_excesses() -> [i32; 16]
    ensures { result ≡ min_excesses }
{
    MIN_EXCESS
}

// The bit of a byte with weight 2 to the power (m mod 8).
pub fn bit(byte: u8, m: usize) -> bool
    ensures { result ≡ byte_bit byte (m % 8) }
{
    (byte >> ((m % 8) as u8)) % 2 == 1
}

// Bit k of the bytes; 0 where they have none.
pub fn is_open(tree: &[u8], k: usize) -> bool
    ensures { result ≡ bit_of tree.now k }
{
    match tree.get(k / 8) {
        Some(&byte) => bit(byte, k),
        None => false,
    }
}
