// The twelve cases, run through the public calls.
#![tactic(auto)]

mod count;
pub mod row;
pub mod run;
