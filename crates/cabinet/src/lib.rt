// Cabinet files, many trees in one, of document 02, T-01 and T-04 (specs/), and what is proved of them (proofs/).
#![tactic(auto)]

ghost use Rattle.std.specs.Prelude.{◌≡◌};
ghost use Rattle.cabinet.specs.File.{mark_number};

// The two marks with which a file can begin.
#[derive(Clone, Copy, PartialEq, Eq)]
pub enum Mark {
    LYN1 = 1,
    LYN2 = 2,
}

// The number by which the reader says which mark it met.
impl From<Mark> for u32 {
    ghost from_gives = { λ mark number. number ≡ mark_number mark };

    fn from(mark: Mark) -> u32 {
        mark as u32
    }
}
