// Where eight frames go that have the same players: numbers alone, from offsets and presence bits.
#![tactic(auto)]

pub mod table;
pub mod team;
