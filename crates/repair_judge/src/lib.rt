// How much of a file is a replay: why none is, or where its events start and where the longest beginning stops.
#![tactic(auto)]

ghost use Rattle.std.specs.Prelude.{◌≡◌};
ghost use Rattle.head.specs.Inner.{Blank};
ghost use Rattle.repair_judge.specs.Inner.{Topped, Opening, Judges};

use format::refusal::{BAD_EVENTS, VERSION_TOO_NEW};
use format::version::Version;
use read_judge::first::{First, first_event};
use read_judge::parts::start_fits;
use repair_head::open_head;
use repair_scan::kept_from;

// A refusal's number, or 0 and two places.
#[derive(Clone, Copy)]
pub struct Judged {
    pub refused: u8,
    pub first: usize,
    pub stop: usize,
}

// A file whose first event is a GameStart of an accepted version.
fn judge_kept(file: &[u8], spans: &[u32], first: usize, v: Version, len: usize) -> Judged
    requires { Opening file.now spans.now first v len }
    ensures { Judges file.now spans.now result }
{
    if !start_fits(file, first + 1, len, v) {
        return Judged {
            refused: BAD_EVENTS,
            first: 0,
            stop: 0,
        };
    }
    let stop = kept_from(file, spans, v, first + 1 + len, file.len());
    if stop == 0 {
        return Judged {
            refused: BAD_EVENTS,
            first: 0,
            stop: 0,
        };
    }
    Judged {
        refused: 0,
        first,
        stop,
    }
}

// A file whose head is accepted.
fn judge_events(file: &[u8], spans: &[u32], first: usize) -> Judged
    requires { Topped file.now spans.now first }
    ensures { Judges file.now spans.now result }
{
    let e = first_event(file, spans, first, file.len());
    let First::Opens { version, len } = e else {
        return Judged {
            refused: BAD_EVENTS,
            first: 0,
            stop: 0,
        };
    };
    if !version.accepted() {
        return Judged {
            refused: VERSION_TOO_NEW,
            first: 0,
            stop: 0,
        };
    }
    judge_kept(file, spans, first, version, len)
}

// Any file. The table's index stays with the caller.
pub fn judge(file: &[u8], spans: &mut [u32]) -> Judged
    requires { Blank spans.old }
    ensures { Judges file.now spans.new result }
{
    let t = open_head(file, spans);
    if t.refusal != 0 {
        return Judged {
            refused: t.refusal,
            first: 0,
            stop: 0,
        };
    }
    judge_events(file, spans, t.first)
}
