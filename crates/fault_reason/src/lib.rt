// Why an event cannot come where a replay stands: a number for each reason.
#![tactic(auto)]

pub mod around;
pub mod due;
pub mod rows;

// A reason, how many events stand before the fault, and the fault's byte.
#[derive(Clone, Copy)]
pub struct Fault {
    pub reason: u8,
    pub event: usize,
    pub offset: usize,
}
