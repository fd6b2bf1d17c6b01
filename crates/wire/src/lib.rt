// Numbers and bytes put into a lent output, and read from a lent input.
#![tactic(auto)]

ghost use Rattle.std.specs.Prelude.{◌≡◌, ◌+◌, ◌*◌, ◌/◌, ◌%◌, ◌^◌, ◌<◌, ◌≤◌, [], ◌∷◌, length};
ghost use Rattle.wire.specs.Wire.{be, number, part, Room, Wrote};

// A byte as a number that can be added and be an index.
pub fn wide(x: u8) -> usize
    ensures { (result ≡ x) × (result < 256) }
{
    x as usize
}

// One byte. Like every writer here it answers the place after what it wrote.
pub fn put_u8(out: &mut [u8], at: usize, b: u8) -> usize
    requires { Room out.old at (b ∷ []) }
    ensures { Wrote out.old out.new at result (b ∷ []) }
{
    out[at] = b;
    at + 1
}

// All of src. By a loop: the library's copy_from_slice needs memmove from outside, which the C library's archive does without.
pub fn put_bytes(out: &mut [u8], at: usize, src: &[u8]) -> usize
    requires { Room out.old at src.now }
    ensures { Wrote out.old out.new at result src.now }
{
    for k in 0..src.len() {
        out[at + k] = src[k];
    }
    at + src.len()
}

// The width low bytes of v, the highest first.
pub fn put_be(out: &mut [u8], at: usize, width: usize, v: u32) -> usize
    requires { (width ≤ 4) × Room out.old at (be width v) }
    ensures { Wrote out.old out.new at result (be width v) }
{
    put_bytes(out, at, &v.to_be_bytes()[4 - width..])
}

// The two or four low bytes of v.
pub fn put_u16(out: &mut [u8], at: usize, v: u32) -> usize
    requires { Room out.old at (be 2 v) }
    ensures { Wrote out.old out.new at result (be 2 v) }
{
    put_be(out, at, 2, v)
}

pub fn put_u32(out: &mut [u8], at: usize, v: u32) -> usize
    requires { Room out.old at (be 4 v) }
    ensures { Wrote out.old out.new at result (be 4 v) }
{
    put_be(out, at, 4, v)
}

// The number of width bytes at `at`, the highest first.
pub fn get_be(s: &[u8], at: usize, width: usize) -> u32
    requires { (width ≤ 4) × (at + width ≤ length s.now) }
    ensures { result ≡ number (part s.now at width) }
{
    let mut n: u32 = 0;
    for b in &s[at..at + width] {
        n = n * 256 + *b as u32;
    }
    n
}
