// A read of several keys through the cache is the server's own answer: definitions and theorems only (specs/, proofs/), no code.
#![tactic(auto)]
