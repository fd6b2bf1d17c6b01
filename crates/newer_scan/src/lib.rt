// The frames of a newer recorder's events in one pass: one event at a time by the file's own table, and what is unknown is passed over.
#![tactic(auto)]

ghost use Rattle.std.specs.Prelude.{◌≡◌, true, List, ◌≤◌, length};
ghost use Rattle.format.specs.File.{Ev};
ghost use Rattle.known.specs.Known.{is_newer};
ghost use Rattle.read_judge.specs.Inner.{Covers};
ghost use Rattle.newer_events.specs.Some.{SomeCovers};
ghost use Rattle.newer_scan.specs.Frames.{FramesRan};
ghost use Rattle.newer_scan.specs.Inner.{ended_at};

pub mod event;

use event::{Turn, try_event};
use format::version::Version;
use newer_order::stage::{Stage, is_closed, outset};
use read_scan::Ran;
use read_scan::event::span_of;
use read_scan::sizes::sizes_of;
use read_scan::tally::{Tally, nothing};

// The frames end at a place, where a frame may end there.
fn ended(m: Stage, at: usize, t: Tally) -> Ran
    ensures { result ≡ ended_at m at t }
{
    if is_closed(m) {
        return Ran::Ended { at: at, tally: t };
    }
    Ran::Wrong
}

// The frames from a place on, up to the first event that is known and none of a frame's.
pub fn frames(file: &[u8], spans: &[u32], v: Version, first: usize, stop: usize) -> Ran
    requires { (is_newer v ≡ true) × (length spans.now ≡ 256) × (stop ≤ length file.now) × SomeCovers file.now spans.now first stop }
    ensures { (raw : List Ev) → Covers file.now spans.now first stop raw → FramesRan v first raw result }
{
    let sizes = sizes_of(v);
    let mut m = outset();
    let mut tally = nothing();
    let mut at = first;
    while at < stop {
        let code = file[at];
        let n = span_of(spans, code);
        let t = try_event(file, v, &sizes[..], m, tally, at, n, code);
        match t {
            Turn::Passes => {
                at += n;
            }
            Turn::Goes {
                stage: stage,
                counts: counts,
            } => {
                m = stage;
                tally = counts;
                at += n;
            }
            Turn::Ends => {
                return ended(m, at, tally);
            }
            Turn::Refused => {
                return Ran::Wrong;
            }
        }
    }
    ended(m, at, tally)
}
