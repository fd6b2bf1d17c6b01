// The events of the frames: what is the same for all records of a family, and the writer of all records.
#![tactic(auto)]

mod eights;
pub mod frame;
mod middle;
mod rows;
pub mod shapes;
mod spans;
