// Floats from their bits, at every pattern.
ghost use Rattle.std.specs.Prelude.{◌≡◌};
ghost use Rattle.std.specs.Float.{binary32};
ghost use Rattle.std.specs.Float.Ieee.{of_bits};

// The float that the bits stand for: the one NaN for every NaN's pattern.
pub fn float_of(bits: u32) -> f32
    ensures { result ≡ of_bits binary32 bits }
{
    if 0x7f80_0000 < bits % 0x8000_0000 {
        let z: f32 = 0.0;
        z / z
    } else {
        f32::from_bits(bits)
    }
}
