// Gecko codes, which stand before the frames of a replay.
#![tactic(auto)]

pub mod blocks;
