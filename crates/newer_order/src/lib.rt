// The order of a newer recorder's frames, one event at a time: what may come where a frame stands, and where it stands then. No file is looked at.
#![tactic(auto)]

pub mod order;
pub mod stage;
pub mod step;
