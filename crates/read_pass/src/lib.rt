// The second pass of reading a replay back: the events of frames that are known to be in order, first the players', then all others.
#![tactic(auto)]

pub mod fill;
