// That with the faulty event no replay goes on. All of it is in `specs` and `proofs`.
#![tactic(auto)]
