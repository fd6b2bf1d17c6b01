// The rows of frame records: a record's cells as a struct of numbers and floats.
#![tactic(auto)]

pub mod cells;
pub mod float;
pub mod item;
pub mod parts;
pub mod post;
pub mod pre;
pub mod small;
