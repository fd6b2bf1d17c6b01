// The start block's bytes, over a template.
#![tactic(auto)]

pub mod block;
pub mod field;
pub mod seat;
