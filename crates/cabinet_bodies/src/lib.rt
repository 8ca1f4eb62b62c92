// The verdict on letter counts and bodies of a cabinet file, for the writer and for the reader: document 02, T-01.
#![tactic(auto)]

ghost use Rattle.std.specs.Prelude.{◌≡◌, length};
ghost use Rattle.refusal.specs.Numbers.{verdict_number};
ghost use Rattle.cabinet.specs.File.{body_bytes, count_in};
ghost use Rattle.cabinet.specs.Refusals.{any_too_long, trees_flaw, write_refusal, Allowed, Fitting};

use refusal::Refusal;
use suffix::tree_length;

// Whether a letter count passes 1,000,000: 1.
fn any_too_long(counts: &[u32]) -> bool
    ensures { result ≡ any_too_long counts.now }
{
    counts.iter().any(|n| *n > 1000000)
}

// The bytes of all trees.
fn body_bytes(counts: &[u32]) -> usize
    requires { Allowed counts.now }
    ensures { result ≡ body_bytes (count_in counts.now) (length counts.now) }
{
    counts.iter().map(|n| tree_length(*n as usize)).sum()
}

// What is wrong with the first tree that has a flaw.
#[tactic(auto, using(crate::proofs::Splitting::splitting))]
fn flaw_of(counts: &[u32], trees: &[u8]) -> Result<(), Refusal>
    requires { Fitting counts.now trees.now }
    ensures { verdict_number result ≡ trees_flaw counts.now trees.now }
{
    let mut rest = trees;
    for n in counts {
        let n = *n as usize;
        let (body, behind) = rest.split_at(tree_length(n));
        brackets::verdict_on(n, body)?;
        rest = behind;
    }
    Ok(())
}

// Whether the trees of these letter counts, end to end, make a file of so many bytes: 10, 1, 3, and 6 to 8 body by body.
#[tactic(auto, using(cabinet::proofs::Conditions::writer_tests))]
pub fn verdict_on(counts: &[u32], trees: &[u8], size: usize) -> Result<(), Refusal>
    ensures { verdict_number result ≡ write_refusal counts.now trees.now size }
{
    if counts.len() > 64 {
        return Err(Refusal::TooManyEntries);
    }
    if any_too_long(counts) {
        return Err(Refusal::TooLong);
    }
    let bytes = body_bytes(counts);
    if trees.len() != bytes || size != 8 + 8 * counts.len() + bytes {
        return Err(Refusal::TreeLength);
    }
    flaw_of(counts, trees)
}
