// How far the events of a file are a replay's: the frames in one pass, with the last place where no frame is open, then the ends.
#![tactic(auto)]

ghost use Rattle.std.specs.Prelude.{◌≡◌, suc, ◌≤◌, length};
ghost use Rattle.grammar.specs.Machine.{initial};
ghost use Rattle.read_scan.specs.Counts.{no_tally};
ghost use Rattle.read_outline.specs.Inner.{codes_at};
ghost use Rattle.repair_scan.specs.Inner.{reached, with_ends, from_codes, start_only, kept_from};

pub mod ends;
pub mod pass;
pub mod rest;

use ends::ends_from;
use format::version::Version;
use pass::furthest;
use read_outline::answer::Codes;
use rest::is_short;

// The ends behind the frames, where a replay may end there.
fn with_ends(file: &[u8], spans: &[u32], v: Version, place: usize, stop: usize) -> usize
    requires { (place ≤ stop) × (stop ≤ length file.now) × (length spans.now ≡ 256) }
    ensures { result ≡ with_ends v file.now spans.now stop (reached v file.now spans.now stop (suc stop) place initial no_tally 0) }
{
    let r = furthest(file, spans, v, place, stop);
    if r.at == r.best {
        return ends_from(file, spans, v, r.at, stop);
    }
    r.best
}

// From the blocks of codes on.
fn from_codes(file: &[u8], spans: &[u32], v: Version, at: usize, stop: usize) -> usize
    requires { (at ≤ stop) × (stop ≤ length file.now) × (length spans.now ≡ 256) }
    ensures { result ≡ from_codes v file.now spans.now stop (codes_at v file.now spans.now at stop) }
{
    let c = read_outline::codes(file, spans, v, at, stop);
    let Codes::Ended {
        at: place,
        blocks,
        actual,
    } = c
    else {
        return 0;
    };
    if read_outline::listed_right(spans, v, blocks, actual) {
        if blocks <= 32768 {
            return with_ends(file, spans, v, place, stop);
        }
    }
    0
}

// The start alone.
fn start_only(spans: &[u32], v: Version, at: usize) -> usize
    requires { length spans.now ≡ 256 }
    ensures { result ≡ start_only v spans.now at }
{
    if read_outline::listed_right(spans, v, 0, 0) {
        if is_short(at) {
            return at;
        }
    }
    0
}

// Where the longest replay ends whose start block ends at a place, or 0 where there is none.
pub fn kept_from(file: &[u8], spans: &[u32], v: Version, at: usize, stop: usize) -> usize
    requires { (at ≤ stop) × (stop ≤ length file.now) × (length spans.now ≡ 256) }
    ensures { result ≡ kept_from v file.now spans.now stop at }
{
    let p = from_codes(file, spans, v, at, stop);
    if p == 0 {
        return start_only(spans, v, at);
    }
    p
}
