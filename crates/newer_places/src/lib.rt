// Where the players' events of up to eight frames stand in a newer recorder's file: a table of places, by the file's own spans. What is unknown is passed over.
#![tactic(auto)]

pub mod scan;
