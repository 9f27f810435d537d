// What resolving takes from a plan: its nodes as commands, and the one walk over nodes and replies that the passes make. No code: specs/ has the
// definitions, proofs/ their laws.
#![tactic(auto)]
