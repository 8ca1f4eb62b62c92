// Ranks, the numbers by which letters and symbols compare.
#![tactic(auto)]

ghost use Rattle.std.specs.Prelude.{◌≡◌, ℕ, eqb, map};
ghost use Rattle.ranks.specs.Ranks.{rank, symbol_rank, oriented_rank, AllFit};

// What a string is of: letters of one byte, or symbols of 32 bits.
pub trait Letter: Copy {
    // The number by which a letter compares.
    ghost rank: { Self → ℕ };

    fn rank(self) -> u32
        ensures { result ≡ rank self };

    // Whether two letters compare as equal.
    fn is_same(self, other: Self) -> bool
        ensures { result ≡ eqb (rank self) (rank other) };

    // The ranks of a string fit in 32 bits.
    fn fit(string: &[Self])
        ensures { AllFit (map rank string.now) };
}

// Small letters compare as capitals.
impl Letter for u8 {
    ghost rank = { rank };

    #[tactic(auto, using(crate::proofs::Masking::rank_small, crate::proofs::Masking::rank_other))]
    fn rank(self) -> u32 {
        let value = self as u32;
        if self.is_ascii_lowercase() {
            value - 32
        } else {
            value
        }
    }

    fn is_same(self, other: u8) -> bool {
        // equal letters have equal ranks
        self == other || self.rank() == other.rank()
    }

    #[tactic(auto, using(crate::proofs::Ranks::ranks_most))]
    fn fit(string: &[u8]) {}
}

// Symbols compare as numbers.
impl Letter for u32 {
    ghost rank = { symbol_rank };

    fn rank(self) -> u32 {
        self
    }

    fn is_same(self, other: u32) -> bool {
        self == other
    }

    fn fit(string: &[u32]) {}
}

// A rank in the order of the ranks, or in its reverse.
pub fn orient(rank: u32, reverse: bool) -> u32
    ensures { result ≡ oriented_rank reverse rank }
{
    if reverse {
        return 4294967295 - rank;
    }
    rank
}
