// The start that a block says, where the block stands in a file.
#![tactic(auto)]

ghost use Rattle.std.specs.Prelude.{◌≡◌, ◌+◌, ◌≤◌, length};
ghost use Rattle.wire.specs.Wire.{part};
ghost use Rattle.start.specs.Length.{length_of};
ghost use Rattle.read_start.specs.Start.{start_in, seats_fit};

pub mod block;
pub mod part;
pub mod seat;
pub mod text;

use block::{start_of, types_fit};
use format::version::Version;
use game::start::Start;

// The start in the block of so many bytes at `at`.
pub fn start_in(file: &[u8], at: usize, len: usize, v: Version) -> Start
    requires { (length_of v ≤ len) × (at + len ≤ length file.now) }
    ensures { result ≡ start_in v (part file.now at len) }
{
    start_of(&file[at..at + len], v)
}

// Whether its four seat types are at most 3.
pub fn seats_fit(file: &[u8], at: usize, len: usize) -> bool
    requires { (320 ≤ len) × (at + len ≤ length file.now) }
    ensures { result ≡ seats_fit (part file.now at len) }
{
    types_fit(&file[at..at + len])
}
