// What the frames of a replay say as columns: definitions and laws, no code.
#![tactic(auto)]
