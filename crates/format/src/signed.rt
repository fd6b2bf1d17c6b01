// Signed numbers by their bits.
ghost use Rattle.std.specs.Prelude.{◌≡◌, ◌%◌};
ghost use Rattle.std.specs.Int.{w8, w32};
ghost use Rattle.std.proofs.Common.{to_z};

// The low byte of a cell, as a signed number.
pub fn signed8(x: u32) -> i8
    ensures { result ≡ to_z w8 (x % 256) }
{
    ((x % 256) as u8).cast_signed()
}

// A cell, as a signed number.
pub fn signed32(x: u32) -> i32
    ensures { result ≡ to_z w32 x }
{
    x.cast_signed()
}
