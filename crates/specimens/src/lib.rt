// No code: the specimens M1 to M12 of document 01 (specs/), and that the definitions give each of them (proofs/).
#![tactic(auto)]
