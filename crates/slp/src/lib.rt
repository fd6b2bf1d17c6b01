// What C and Rust call: numbers, slices (a pointer, then a count of elements) and structs by value. include/slp.h says it in C's words.
#![tactic(auto)]

pub mod check;
pub mod fault;
pub mod index;
mod lent;
pub mod live_calls;
pub mod map_calls;
pub mod masks;
pub mod read_calls;
pub mod repair;
pub mod room_calls;
pub mod row_calls;
pub mod rows_calls;
pub mod store_columns;
pub mod walk;
pub mod words;
pub mod write;
pub mod write_final;
pub mod write_frames;
