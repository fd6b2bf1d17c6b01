// The nouns: a game as plain data by value, for everything that writes, judges, reads or shows one. The stores are lent beside it.
// A mark is a byte: nonzero is yes.
#![tactic(auto)]

use end::End;
use frames::Frames;
use start::Start;

pub mod end;
pub mod frames;
pub mod start;
pub mod stores;

#[repr(C)]
#[derive(Clone, Copy)]
pub struct Game {
    pub frames: Frames,
    pub start: Start,
    pub end: End,
    pub double_end: u8,
    pub codes_given: u8,
    pub metadata_given: u8,
    pub actual_size: u32,
}
