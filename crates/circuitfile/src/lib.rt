// What a circuit file and its printed text are: definitions and laws, in specs/ and proofs/.
#![tactic(auto)]
