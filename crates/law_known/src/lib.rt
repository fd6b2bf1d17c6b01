// What is read of a newer recorder's events: definitions for the theorems and laws only, no code.
#![tactic(auto)]
