// Eight frames a step apart that have players' events alone between FrameStart and FrameEnd, into the stores that are no player's.
#![tactic(auto)]

pub mod leap;
