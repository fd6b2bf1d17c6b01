// The columns of a version for the pass over the stores that are no player's.
#![tactic(auto)]

pub mod fill;
