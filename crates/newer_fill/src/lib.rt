// The second pass over a newer recorder's file: the players' stores, then those that are no player's. Of each known event 3.18's bytes are read, and unknown
// ones are passed over.
#![tactic(auto)]

pub mod fill;
pub mod seats;
