// What stands after the frames of a replay: the game's end, and the tail of the file.
#![tactic(auto)]

pub mod end;
pub mod tail;
