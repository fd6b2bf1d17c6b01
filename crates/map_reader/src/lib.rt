// The reader of a metadata map's body.
#![tactic(auto)]

pub mod fill;
pub mod get;
pub mod keys;
pub mod read;
pub mod skip;
