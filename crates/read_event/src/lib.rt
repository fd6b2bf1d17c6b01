// What one event of a frame puts into lent stores: a row, a player's row and bit, a frame's id and offsets.
#![tactic(auto)]

pub mod alike;
pub mod known;
pub mod marks;
pub mod numbers;
pub mod rows;
pub mod seats;
pub mod seen;
pub mod spans;
pub mod zeros;
