// Causes 1 and 9, with which every call on an arena begins: definitions and laws only (specs/), no code. The code is `sharded_lru::admit`.
#![tactic(auto)]
