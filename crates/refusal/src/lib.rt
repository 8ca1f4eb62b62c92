// Why an operation refuses: document 01, "Who can cause which refusal", and document 02, T-01, T-03, T-04 and T-09.
#![tactic(auto)]

ghost use Rattle.std.specs.Prelude.{◌≡◌};
ghost use Rattle.refusal.specs.Numbers.{number_of, verdict_number};
ghost use Rattle.refusal.specs.Conditions.{build_refusal, tables_refusal};

use suffix::tree_length;

#[derive(Clone, Copy, Debug, PartialEq, Eq)]
pub enum Refusal {
    TooLong = 1,
    TableLength = 2,
    TreeLength = 3,
    TooManyRows = 4,
    PositionOutside = 5,
    SpareBitSet = 6,
    ClosedTooEarly = 7,
    LeftOpen = 8,
    NotMarked = 9,
    TooManyEntries = 10,
    WrongContents = 11,
    ListLengths = 12,
    TooManyRuns = 13,
    SizeOutside = 14,
}

// The document's number of a refusal.
impl From<Refusal> for u32 {
    ghost from_gives = { λ refusal number. number ≡ number_of refusal };

    fn from(refusal: Refusal) -> u32 {
        refusal as u32
    }
}

// The number of a verdict: 0 where nothing is refused.
pub fn verdict_number(verdict: Result<(), Refusal>) -> u32
    ensures { result ≡ verdict_number verdict }
{
    match verdict {
        Ok(()) => 0,
        Err(refusal) => refusal.into(),
    }
}

// The verdict on four tables of these lengths for n letters.
pub fn tables_verdict(
    n: usize,
    previous: usize,
    next: usize,
    previous_match: usize,
    next_match: usize,
) -> Result<(), Refusal>
    ensures { verdict_number result ≡ tables_refusal n previous next previous_match next_match }
{
    if n > 1000000 {
        return Err(Refusal::TooLong);
    }
    if previous != n || next != n || previous_match != n || next_match != n {
        return Err(Refusal::TableLength);
    }
    Ok(())
}

// The verdict on a build of so many rows of n letters, over tables and a tree of these lengths.
pub fn build_verdict(
    n: usize,
    rows: usize,
    previous: usize,
    next: usize,
    previous_match: usize,
    next_match: usize,
    tree: usize,
) -> Result<(), Refusal>
    ensures { verdict_number result ≡ build_refusal n rows previous next previous_match next_match tree }
{
    tables_verdict(n, previous, next, previous_match, next_match)?;
    if tree != tree_length(n) {
        return Err(Refusal::TreeLength);
    }
    if rows > n {
        return Err(Refusal::TooManyRows);
    }
    Ok(())
}
