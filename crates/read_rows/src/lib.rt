// The stores that are no player's from the events of a file: one pass over all events, each to the store of its code.
#![tactic(auto)]

pub mod pass;
