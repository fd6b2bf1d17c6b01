// The order of a frame's events, one event at a time over a lent file: what may come where a frame stands, and where it stands then.
#![tactic(auto)]

pub mod due;
pub mod order;
pub mod stage;
pub mod step;
