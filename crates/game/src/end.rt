// The end of a game.

// A mark is a byte: nonzero is yes. The initiator is a signed byte's bits: 255, which is -1, is none, and 0 to 3 a port.
#[repr(C)]
#[derive(Clone, Copy)]
pub struct End {
    pub given: u8,
    pub method: u8,
    pub initiator: u8,
    // whether a port's player was placed
    pub placed: [u8; 4],
    pub placements: [u8; 4],
}
