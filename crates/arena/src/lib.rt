// No code: the arena's layout, which bytes are an image, and cause 9 are definitions (specs/) and theorems (proofs/).
#![tactic(auto)]
