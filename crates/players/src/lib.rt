// The players of a game: its slots, and in which frames each of them is.
#![tactic(auto)]

pub mod presence;
pub mod slots;
