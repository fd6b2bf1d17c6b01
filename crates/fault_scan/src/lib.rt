// Where the events of a file stop to begin a replay, in one pass, and why.
#![tactic(auto)]

pub mod around;
pub mod pass;
pub mod row;
pub mod standing;
pub mod turn;
