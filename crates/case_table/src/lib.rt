// The twelve cases: their table is in specs/Table.antt. Here are its games as code.
#![tactic(auto)]

pub mod sample;
