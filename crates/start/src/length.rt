// The start block's length.
ghost use Rattle.std.specs.Prelude.{◌≡◌};
ghost use Rattle.start.specs.Length.{length_of};

use super::gate::Gate;
use format::version::Version;

// The bytes that a version's start block has at least.
pub fn block_length(v: Version) -> usize
    ensures { result ≡ length_of v }
{
    for g in &Gate::NEWEST_FIRST {
        if g.reached(v) {
            return g.bytes;
        }
    }
    320
}
