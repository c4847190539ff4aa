// The whole numbers: no code, only the laws of specs/ and proofs/, which every crate above cites.
#![tactic(auto)]
