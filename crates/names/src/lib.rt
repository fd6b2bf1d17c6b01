// What columns, refusals and faults are called.
#![tactic(auto)]

pub mod columns;
pub mod faults;
pub mod lines;
pub mod refusals;
