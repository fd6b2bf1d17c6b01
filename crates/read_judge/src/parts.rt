// The parts of a replay's event data after its first event: codes, frames, ends.
ghost use Rattle.std.specs.Prelude.{◌≡◌, ◌+◌, ◌≤◌, length};
ghost use Rattle.wire.specs.Wire.{part};
ghost use Rattle.read_judge.specs.Inner.{start_fits, changes};

use format::version::Version;
use layout::columns::Family;
use read_scan::tally::Tally;
use start::length::block_length;

// Where the parts stand, and how many there are of each.
#[derive(Clone, Copy)]
pub struct Parts {
    pub version: Version,
    pub block_len: usize,
    pub codes_at: usize,
    pub blocks: usize,
    pub actual: usize,
    pub frames_at: usize,
    pub tally: Tally,
    pub ends_at: usize,
    pub ends: usize,
}

// The parts of a replay that can be read back, or none.
#[derive(Clone, Copy)]
pub enum Judged {
    Held { parts: Parts },
    Wrong,
}

// Whether the block has the version's length at least, and seat types to 3.
pub fn start_fits(file: &[u8], at: usize, len: usize, v: Version) -> bool
    requires { at + len ≤ length file.now }
    ensures { result ≡ start_fits v (part file.now at len) }
{
    if block_length(v) <= len {
        return read_start::seats_fit(file, at, len);
    }
    false
}

// Whether neighbouring frames have unlike ids, which is asked where there is no FrameStart.
pub fn changing(v: Version, t: Tally) -> bool
    ensures { result ≡ changes v t }
{
    if Family::FrameStart.exists(v) {
        return true;
    }
    t.changing
}
