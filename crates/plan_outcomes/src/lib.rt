// No code: that the plan which planning wrote is read as the outcomes it was written for, in specs/ and proofs/.
#![tactic(auto)]
