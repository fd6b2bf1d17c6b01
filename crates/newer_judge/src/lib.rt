// Which replay a file holds, whichever recorder wrote it: up to 3.18.0 as read_judge says, of a newer one by the events that are known.
#![tactic(auto)]

ghost use Rattle.std.specs.Prelude.{◌≡◌};
ghost use Rattle.read_judge.specs.Found.{early_refusal};
ghost use Rattle.newer_judge.specs.Inner.{Newly, CountedNewer, Tells};

use format::refusal::{BAD_EVENTS, TOO_MANY, VERSION_TOO_NEW};
use newer::judge_parts;
use read_judge::first::{First, first_event};
use read_judge::parts::{Judged, Parts};
use read_judge::{Verdict, input_of, refused};

pub mod newer;

// The counts of the replay that a newer file holds are judged last.
fn judge_counts(file: &[u8], first: usize, stop: usize, parts: Parts) -> Verdict
    requires { CountedNewer file.now first stop parts }
    ensures { Tells file.now result }
{
    let f = input_of(parts);
    if frames::judge::too_many(f, 512 * parts.blocks, 0) {
        return refused(TOO_MANY);
    }
    Verdict::Held { first, stop, parts }
}

// A file whose version is above 3.18.0: from major 4 on it is refused.
fn judge_events(file: &[u8], spans: &[u32], first: usize, stop: usize, whole: bool) -> Verdict
    requires { Newly file.now spans.now first stop whole }
    ensures { Tells file.now result }
{
    let e = first_event(file, spans, first, stop);
    let First::Opens { version, len } = e else {
        return refused(BAD_EVENTS);
    };
    if 3 < version.major {
        return refused(VERSION_TOO_NEW);
    }
    if !whole {
        return refused(BAD_EVENTS);
    }
    let j = judge_parts(file, spans, version, first, stop, len);
    let Judged::Held { parts } = j else {
        return refused(BAD_EVENTS);
    };
    judge_counts(file, first, stop, parts)
}

// A file that was walked without refusal, and then refused for its version.
fn judge_newer(file: &[u8]) -> Verdict
    requires { early_refusal file.now ≡ 1 }
    ensures { Tells file.now result }
{
    let mut spans = [0u32; 256];
    let h = head::table::parse_head(file, &mut spans);
    judge_events(file, &spans, h.first, h.stop, h.whole)
}

// Any file.
pub fn judge(file: &[u8]) -> Verdict
    ensures { Tells file.now result }
{
    let v = read_judge::judge(file);
    match v {
        Verdict::Refused { number, offset } => {
            if number == VERSION_TOO_NEW {
                return judge_newer(file);
            }
            Verdict::Refused { number, offset }
        }
        Verdict::Held { first, stop, parts } => Verdict::Held { first, stop, parts },
    }
}
