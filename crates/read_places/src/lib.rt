// Where the players' events of up to eight frames stand: their places in a table, frame after frame, or by a step where the frames are alike.
#![tactic(auto)]

pub mod alike;
pub mod scan;
