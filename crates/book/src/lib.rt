#![tactic(auto)]

// No code: the book (part B of docs/BEHAVIOUR.md), and demand 3 on it, as definitions (specs/) and theorems (proofs/).
