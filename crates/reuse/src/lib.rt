// No code: the reuse steps of document 01 (specs/), and that they are exact (proofs/).
#![tactic(auto)]
