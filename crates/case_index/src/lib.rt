// The indexes of worked files: all of it is in `proofs`.
#![tactic(auto)]
