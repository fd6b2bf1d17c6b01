// Which replay a file holds: its head, the first event, then the parts of the event data, and its counts; where these do not hold, the walk.
#![tactic(auto)]

ghost use Rattle.read_judge.specs.Inner.{Counted, Verdicts, refused_as, counts_by, WalkDone, Headed};
ghost use Rattle.std.specs.Prelude.{◌≡◌};

use after_start::judge_parts;
use de::Walked;
use first::{First, first_event};
use format::refusal::{BAD_EVENTS, TOO_MANY, VERSION_TOO_NEW};
use game::frames::{Counts, Frames, PortColumn};
use parts::{Judged, Parts};
use read_scan::tally::Tally;

pub mod after_start;
pub mod first;
pub mod parts;

// Why a file is refused; or where its events start and end, and the parts of the replay that it holds.
#[derive(Clone, Copy)]
pub enum Verdict {
    Refused {
        number: u8,
        offset: usize,
    },
    Held {
        first: usize,
        stop: usize,
        parts: Parts,
    },
}

// A refusal that names no place.
pub fn refused(number: u8) -> Verdict
    ensures { result ≡ refused_as number }
{
    Verdict::Refused { number, offset: 0 }
}

// How many rows were counted.
pub fn counts_by(t: Tally) -> Counts
    ensures { result ≡ counts_by t }
{
    Counts {
        frames: t.frames,
        items: t.items,
        fods: t.fods,
        whispys: t.whispys,
        stadiums: t.stadiums,
    }
}

// A frame input that has these counts, and nobody in it.
pub fn input_of(p: Parts) -> Frames
    ensures { result.counts ≡ counts_by p.tally }
{
    let version = p.version;
    let counts = counts_by(p.tally);
    let none = PortColumn {
        port: 0,
        follower: 0,
        leader_presence: 0,
        follower_presence: 0,
    };
    Frames {
        version,
        counts,
        ports: [none; 4],
        port_count: 0,
    }
}

// The counts of the replay that a file holds are judged last.
fn judge_counts(file: &[u8], first: usize, stop: usize, parts: Parts) -> Verdict
    requires { Counted file.now first stop parts }
    ensures { Verdicts file.now result }
{
    let f = input_of(parts);
    if frames::judge::too_many(f, 512 * parts.blocks, 0) {
        return refused(TOO_MANY);
    }
    Verdict::Held { first, stop, parts }
}

// A file that is refused with a number, unless its walk is refused first. Only here is a file walked.
fn unless_walk_refused(file: &[u8], number: u8) -> Verdict
    requires { WalkDone file.now → Verdicts file.now (refused_as number) }
    ensures { Verdicts file.now result }
{
    let w = de::walk(file);
    match w {
        Walked::Refused { number, offset } => Verdict::Refused { number, offset },
        Walked::Done {
            events: _,
            stray: _,
            whole: _,
            place: _,
        } => refused(number),
    }
}

// A file whose head is accepted. Where its parts hold they go over every event, so that it is not walked.
fn judge_events(file: &[u8], spans: &[u32], first: usize, stop: usize, whole: bool) -> Verdict
    requires { Headed file.now spans.now first stop whole }
    ensures { Verdicts file.now result }
{
    let e = first_event(file, spans, first, stop);
    let First::Opens { version, len } = e else {
        return unless_walk_refused(file, BAD_EVENTS);
    };
    if !version.accepted() {
        return unless_walk_refused(file, VERSION_TOO_NEW);
    }
    if !whole {
        return unless_walk_refused(file, BAD_EVENTS);
    }
    let j = judge_parts(file, spans, version, first, stop, len);
    let Judged::Held { parts } = j else {
        return unless_walk_refused(file, BAD_EVENTS);
    };
    judge_counts(file, first, stop, parts)
}

// Any file.
pub fn judge(file: &[u8]) -> Verdict
    ensures { Verdicts file.now result }
{
    let mut spans = [0u32; 256];
    let h = head::table::parse_head(file, &mut spans);
    if h.refusal != 0 {
        return Verdict::Refused {
            number: h.refusal,
            offset: h.offset,
        };
    }
    judge_events(file, &spans, h.first, h.stop, h.whole)
}
