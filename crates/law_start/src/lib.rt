// There and back: what the writer of a start block and its reader are to each other.
#![tactic(auto)]
