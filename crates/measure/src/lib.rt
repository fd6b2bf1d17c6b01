// Columns back from a replay: `measure` says what a file needs, `read` fills lent stores with it.
#![tactic(auto)]

use crate::lengths::Lengths;
use game::Game;
use game::frames::Frames;

pub mod answer;
pub mod lengths;
pub mod measuring;
pub mod none;
pub mod short;
pub mod tail;

// Where the start block stands in a file, what its tail is (0 for one brace, 1 for metadata, 2 for anything else), and where the metadata's body stands.
#[repr(C)]
#[derive(Clone, Copy)]
pub struct Places {
    pub block_at: usize,
    pub block_len: usize,
    pub tail: u8,
    pub metadata_at: usize,
    pub metadata_len: usize,
}

// What `read` needs, or why it refuses; and whether only a part of it is known, as of a newer recorder's file. A field that an answer lacks is 0.
#[repr(C)]
#[derive(Clone, Copy)]
pub struct Measured {
    pub refused: u8,
    pub partly: u8,
    pub offset: usize,
    pub frames: Frames,
    pub codes_given: u8,
    pub actual_size: u32,
    pub lengths: Lengths,
    pub places: Places,
}

// The game of a replay, or why it is refused.
#[repr(C)]
#[derive(Clone, Copy)]
pub struct Opened {
    pub refused: u8,
    pub partly: u8,
    pub offset: usize,
    pub game: Game,
    pub places: Places,
}
