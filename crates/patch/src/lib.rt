// A block, patched in place: numbers and texts at their offsets.
#![tactic(auto)]

ghost use Rattle.std.specs.Prelude.{◌≡◌, cond, ◌+◌, ◌≤◌, length, take, replicate};
ghost use Rattle.format.specs.Mark.{flag_of};
ghost use Rattle.wire.specs.Wire.{part, Wrote};
ghost use Rattle.patch.specs.Field.{zero_filled};
ghost use Rattle.patch.specs.Inner.{Patched, number_patches, Fit};

use game::start::Text;

// A mark as it is written.
pub fn flag_of(mark: u8) -> u32
    ensures { result ≡ flag_of mark }
{
    (mark != 0) as u32
}

// The width of a byte that is written, or not.
pub fn width_if(on: bool) -> usize
    ensures { (result ≡ cond on 1 0) × (result ≤ 1) }
{
    on as usize
}

// A table of numbers from `at` on: the widths' low bytes of the values at the offsets. Three lists, as `Fit` and `number_patches` name them.
pub fn put_numbers(block: &mut [u8], at: usize, offsets: &[usize], widths: &[usize], values: &[u32])
    requires { Fit (length block.old) at offsets.now widths.now values.now }
    ensures { Patched block.old block.new (number_patches at offsets.now widths.now values.now) }
{
    for j in 0..offsets.len() {
        let p = at + offsets[j];
        wire::put_be(block, p, widths[j], values[j]);
    }
}

// The first n bytes of src.
fn put_first(block: &mut [u8], at: usize, src: &[u8], n: usize) -> usize
    requires { (n ≤ length src.now) × (at + n ≤ length block.old) }
    ensures { Wrote block.old block.new at result (take n src.now) × (result ≡ at + n) }
{
    wire::put_bytes(block, at, &src[..n])
}

// n zeros, at most 51, at a place of the block.
pub fn put_zeros(block: &mut [u8], at: usize, n: usize) -> usize
    requires { (n ≤ 51) × (at + n ≤ length block.old) }
    ensures { Wrote block.old block.new at result (replicate n 0) }
{
    block[at..at + n].fill(0);
    at + n
}

// A text, and zeros up to the field's width.
pub fn put_filled(block: &mut [u8], at: usize, width: usize, t: Text) -> usize
    requires { (t.len ≤ 50) × (t.len ≤ width) × (width ≤ 51) × (at + width ≤ length block.old) }
    ensures { Wrote block.old block.new at result (zero_filled width t) × (part block.new at width ≡ zero_filled width t) }
{
    let n = t.len;
    let rest = width - n;
    let next = put_first(block, at, &t.bytes, n);
    put_zeros(block, next, rest)
}
