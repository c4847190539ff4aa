// What the engine vouches for: theorems alone, stated in specs/ and proved in specs/ and proofs/.
#![tactic(auto)]
