// The words of the replay format: versions, frame ids, event codes, the signature, refusal numbers, and signed numbers by their bits.
#![tactic(auto)]

pub mod event;
pub mod frame_id;
pub mod refusal;
pub mod signed;
pub mod version;
