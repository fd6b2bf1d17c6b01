// The parts after the first event, each judged in one pass.
ghost use Rattle.read_judge.specs.Inner.{Started, JudgesFirst};

use crate::parts::{Judged, Parts, changing, start_fits};
use format::version::Version;
use read_order::due::PortOrder;
use read_outline::answer::{Codes, Ends};
use read_scan::Ran;

// The parts after a first event at `first`, whose payload is `len` bytes long.
pub fn judge_parts(
    file: &[u8],
    spans: &[u32],
    v: Version,
    first: usize,
    stop: usize,
    len: usize,
) -> Judged
    requires { Started file.now spans.now v first stop len }
    ensures { JudgesFirst file.now first stop result }
{
    let codes_at = first + 1 + len;
    if !start_fits(file, first + 1, len, v) {
        return Judged::Wrong;
    }
    let c = read_outline::codes(file, spans, v, codes_at, stop);
    let Codes::Ended { at, blocks, actual } = c else {
        return Judged::Wrong;
    };
    if !read_outline::listed_right(spans, v, blocks, actual) {
        return Judged::Wrong;
    }
    let r = read_scan::frames(file, spans, v, PortOrder::Ascending, at, stop);
    let Ran::Ended { at: ends_at, tally } = r else {
        return Judged::Wrong;
    };
    if !changing(v, tally) {
        return Judged::Wrong;
    }
    let e = read_outline::ends(file, spans, v, ends_at, stop);
    let Ends::Good { count } = e else {
        return Judged::Wrong;
    };
    Judged::Held {
        parts: Parts {
            version: v,
            block_len: len,
            codes_at,
            blocks,
            actual,
            frames_at: at,
            tally,
            ends_at,
            ends: count,
        },
    }
}
