// Fields of the start block that the versions from a gate on write.
ghost use Rattle.std.specs.Prelude.{◌≡◌, true, false, ◌+◌, ◌≤◌, length};
ghost use Rattle.format.specs.Mark.{flag_of};
ghost use Rattle.patch.specs.Field.{text, read_at};
ghost use Rattle.patch.specs.Inner.{Patched};
ghost use Rattle.start.specs.Gate.{reaches};
ghost use Rattle.start.specs.Refusal.{holds_zero};
ghost use Rattle.start.specs.Block.{number_field, text_field};

use format::version::Version;
use game::start::Text;
use patch::{flag_of, put_filled};
use start::gate::Gate;

pub fn put_number(block: &mut [u8], v: Version, g: Gate, at: usize, width: usize, value: u32)
    requires { (width ≤ 4) × (reaches v g ≡ true → at + width ≤ length block.old) }
    ensures { Patched block.old block.new (number_field v g at width value) }
{
    if g.reached(v) {
        wire::put_be(block, at, width, value);
    }
}

pub fn put_flag(block: &mut [u8], v: Version, g: Gate, at: usize, mark: u8)
    requires { reaches v g ≡ true → at + 1 ≤ length block.old }
    ensures { Patched block.old block.new (number_field v g at 1 (flag_of mark)) }
{
    put_number(block, v, g, at, 1, flag_of(mark));
}

// A text, and zeros up to the field's width. A viewer who reads the field up to the first zero, or to its end, reads the text.
pub fn put_text(block: &mut [u8], v: Version, g: Gate, at: usize, width: usize, t: Text)
    requires { (width ≤ 50) × (reaches v g ≡ true → (t.len ≤ width) × (at + width ≤ length block.old)) × (holds_zero v g t ≡ false) }
    ensures { Patched block.old block.new (text_field v g at width t) × (reaches v g ≡ true → read_at block.new at width ≡ text t) }
{
    if g.reached(v) {
        put_filled(block, at, width, t);
    }
}
