// The noise facts: theorems alone, in specs/ and proofs/.
#![tactic(auto)]
