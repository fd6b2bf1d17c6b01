// Frames appended to a lent output at a place of it: a run of them, or one.
#![tactic(auto)]

mod length;
pub mod place;
pub mod run;
