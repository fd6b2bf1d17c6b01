// The parts of a newer recorder's replay after the first event, each judged in one pass over the events that are known.
ghost use Rattle.std.specs.Prelude.{◌≡◌, true};
ghost use Rattle.known.specs.Known.{is_newer};
ghost use Rattle.read_judge.specs.Inner.{Ready};
ghost use Rattle.newer_judge.specs.Inner.{Indexed, JudgesNewer};

use format::version::Version;
use newer_ends::answer::Ends;
use read_judge::parts::{Judged, Parts, start_fits};
use read_outline::answer::Codes;
use read_scan::Ran;

// The parts after a first event at `first`, whose payload is `len` bytes long. Frames end where the first end stands, if there is one.
pub fn judge_parts(
    file: &[u8],
    spans: &[u32],
    v: Version,
    first: usize,
    stop: usize,
    len: usize,
) -> Judged
    requires { Ready file.now spans.now v first stop len × Indexed file.now spans.now × (is_newer v ≡ true) }
    ensures { JudgesNewer file.now first result }
{
    let codes_at = first + 1 + len;
    if !start_fits(file, first + 1, len, v) {
        return Judged::Wrong;
    }
    let c = newer_codes::codes(file, spans, codes_at, stop);
    let Codes::Ended { at, blocks, actual } = c else {
        return Judged::Wrong;
    };
    if !read_outline::listed_right(spans, v, blocks, actual) {
        return Judged::Wrong;
    }
    let r = newer_scan::frames(file, spans, v, at, stop);
    let Ran::Ended { at: ends_at, tally } = r else {
        return Judged::Wrong;
    };
    let e = newer_ends::ends(file, spans, v, ends_at, stop);
    let Ends::Good { count, at: _ } = e else {
        return Judged::Wrong;
    };
    Judged::Held {
        parts: Parts {
            version: v,
            block_len: len,
            codes_at,
            blocks,
            actual,
            frames_at: at,
            tally,
            ends_at,
            ends: count,
        },
    }
}
