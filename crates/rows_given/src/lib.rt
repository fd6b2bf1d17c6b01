// Rows of cells that are given, whatever they are.
#![tactic(auto)]

pub mod given;
mod narrow;
