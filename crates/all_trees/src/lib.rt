// No code: all trees of a size in their order (specs/), and the laws about them (proofs/).
#![tactic(auto)]
