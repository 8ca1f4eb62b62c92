// No code: the published definitions (specs/) and what is proved about them (proofs/).
#![tactic(auto)]
