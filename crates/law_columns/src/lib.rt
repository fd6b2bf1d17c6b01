// That what is read back from frames is what they say, and what a game had: definitions and laws only.
#![tactic(auto)]
