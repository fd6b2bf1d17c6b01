// Marks, numbers and short runs of a block's bytes.
ghost use Rattle.std.specs.Prelude.{◌≡◌, true, ◌+◌, ◌≤◌, length};
ghost use Rattle.format.specs.Mark.{mark_if, flag_of};
ghost use Rattle.wire.specs.Wire.{part};
ghost use Rattle.start.specs.Gate.{reaches};
ghost use Rattle.read_start.specs.Start.{byte_at, number_at, optional_if};

use format::version::Version;
use game::start::Optional;
use start::gate::Gate;

// Whether the version has the fields of a gate, as a mark.
pub fn mark_of(v: Version, g: Gate) -> u8
    ensures { result ≡ mark_if (reaches v g) }
{
    if g.reached(v) {
        return 1;
    }
    0
}

// A flag: nonzero is true.
pub fn flag_at(block: &[u8], at: usize) -> u8
    requires { at + 1 ≤ length block.now }
    ensures { result ≡ flag_of (byte_at block.now at) }
{
    if block[at] == 0 {
        return 0;
    }
    1
}

// A number of two bytes.
pub fn half_at(block: &[u8], at: usize) -> u16
    requires { at + 2 ≤ length block.now }
    ensures { result ≡ number_at block.now at 2 }
{
    block[at] as u16 * 256 + block[at + 1] as u16
}

// Four bytes, and five.
pub fn four_at(block: &[u8], at: usize) -> [u8; 4]
    requires { at + 4 ≤ length block.now }
    ensures { result ≡ part block.now at 4 }
{
    [block[at], block[at + 1], block[at + 2], block[at + 3]]
}

pub fn five_at(block: &[u8], at: usize) -> [u8; 5]
    requires { at + 5 ≤ length block.now }
    ensures { result ≡ part block.now at 5 }
{
    [
        block[at],
        block[at + 1],
        block[at + 2],
        block[at + 3],
        block[at + 4],
    ]
}

// A flag that the versions from a gate on have.
pub fn flag_if(block: &[u8], v: Version, g: Gate, at: usize) -> Optional
    requires { reaches v g ≡ true → at + 1 ≤ length block.now }
    ensures { result ≡ optional_if (reaches v g) (flag_of (byte_at block.now at)) }
{
    if g.reached(v) {
        return Optional {
            given: 1,
            value: flag_at(block, at),
        };
    }
    Optional { given: 0, value: 0 }
}

// A byte that the versions from a gate on have.
pub fn byte_if(block: &[u8], v: Version, g: Gate, at: usize) -> Optional
    requires { reaches v g ≡ true → at + 1 ≤ length block.now }
    ensures { result ≡ optional_if (reaches v g) (byte_at block.now at) }
{
    if g.reached(v) {
        return Optional {
            given: 1,
            value: block[at],
        };
    }
    Optional { given: 0, value: 0 }
}
