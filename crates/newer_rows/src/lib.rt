// The stores that are no player's from a newer recorder's file: one pass over all events by the file's own spans, each known one to the store of its code.
#![tactic(auto)]

pub mod fill;
pub mod pass;
