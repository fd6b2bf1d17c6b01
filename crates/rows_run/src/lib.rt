// The rows of a run as cells, judged once.
#![tactic(auto)]

pub mod family;
mod fill;
pub mod run;
