// The players' stores from the events of a file: each event's cells of eight frames at once, from a table of places.
#![tactic(auto)]

pub mod eights;
pub mod fill;
