// What a game starts with: the length of its start block, and what refuses it. The block's bytes are defined here and written by start_block.
#![tactic(auto)]

pub mod gate;
pub mod judge;
pub mod length;
