// What each exported function answers, by meaning alone: definitions and theorems only (specs/, proofs/), no code.
#![tactic(auto)]
