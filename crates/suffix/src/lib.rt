// The bytes of a tree. All else is the published definitions (specs/) and what is proved about them (proofs/).
#![tactic(auto)]

ghost use Rattle.std.specs.Prelude.{◌≡◌};
ghost use Rattle.suffix.specs.Tree.{tree_length};

// The bytes of a tree of n letters or symbols.
pub fn tree_length(n: usize) -> usize
    ensures { result ≡ tree_length n }
{
    n.div_ceil(4)
}
