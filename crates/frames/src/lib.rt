// The judge of the refusals that every call over a frame input shares.
#![tactic(auto)]

pub mod judge;
mod offsets;
mod ports;
mod stores;
