// The metadata map and its writer: entries of a key and a value, which is a text, a number or a map.
#![tactic(auto)]

pub mod judge;
pub mod keys;
pub mod put;
pub mod write;
