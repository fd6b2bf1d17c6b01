// The writer: a game and its lent stores become a replay file, or a refusal.
#![tactic(auto)]

pub mod file;
pub mod judge;
pub mod length;
pub mod write;
