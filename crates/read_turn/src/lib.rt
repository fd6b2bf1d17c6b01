// One event of a frame into the stores that are no player's: the store of its code, and its frame's id and offsets where it begins one; and which events
// bring these stores nothing.
#![tactic(auto)]

pub mod quiet;
pub mod turn;
