// No code: resolving and pushes (parts S and U of docs/BEHAVIOUR.md) as definitions (specs/) and theorems (proofs/).
#![tactic(auto)]
