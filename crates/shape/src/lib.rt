// No code: the tree of brackets, its shape, its two tables and what is claimed of them (specs/), and that it holds (proofs/).
#![tactic(auto)]
