// That what is repaired is accepted: laws, no code.
#![tactic(auto)]
