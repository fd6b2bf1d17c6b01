// The layout of the frame records, by version: one table of columns, listings made of it, and the payload table.
#![tactic(auto)]

pub mod columns;
pub mod listing;
pub mod payloads;
