// Frame rows: one frame, or one record, out of the lent stores of a game.
#![tactic(auto)]

mod fetch;
pub mod frame;
mod judge;
mod ports;
pub mod records;
