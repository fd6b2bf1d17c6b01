// A frame's id.
ghost use Rattle.std.specs.Prelude.{◌≡◌, ◌≤◌};
ghost use Rattle.std.specs.Int.{w32};
ghost use Rattle.std.proofs.Common.{to_z};
ghost use Rattle.format.specs.FrameId.{place_of};

use super::signed::signed32;

#[derive(Clone, Copy)]
pub struct FrameId {
    pub index: i32,
}

impl FrameId {
    // Frame ids start here, and reach 0 at "Go!".
    pub const FIRST_INDEX: i32 = -123;
    // The last id that a mask takes.
    pub const LAST_INDEX: i32 = 1_048_452;
    // How many ids there are from the first to the last.
    pub const COUNT: usize = 1_048_576;

    // The id whose bits stand in a cell.
    pub fn of_cell(cell: u32) -> FrameId
        ensures { result.index ≡ to_z w32 cell }
    {
        FrameId {
            index: signed32(cell),
        }
    }

    // How far the id stands from the first; COUNT for an id out of range.
    pub fn place(self) -> usize
        ensures { (result ≡ place_of self.index) × (result ≤ 1048576) }
    {
        let index = self.index;
        if index < FrameId::FIRST_INDEX {
            return FrameId::COUNT;
        }
        if FrameId::LAST_INDEX < index {
            return FrameId::COUNT;
        }
        (index - FrameId::FIRST_INDEX) as usize
    }
}
