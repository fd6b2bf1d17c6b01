// The ends of a newer recorder's file: events one at a time by the file's own table, unknown ones passed over, and longer ends read from the front.
#![tactic(auto)]

ghost use Rattle.std.specs.Prelude.{◌≡◌, true, List, ◌≤◌, length};
ghost use Rattle.format.specs.File.{Ev};
ghost use Rattle.read_judge.specs.Inner.{Covers};
ghost use Rattle.known.specs.Known.{is_newer};
ghost use Rattle.newer_events.specs.Some.{SomeCovers};
ghost use Rattle.newer_ends.specs.Ends.{EndsRead};

pub mod answer;
pub mod end;

use answer::Ends;
use end::{is_again, is_right};
use format::event::GAME_END;
use format::version::Version;
use newer_codes::next::next_known;
use read_scan::event::span_of;

// At most two ends that are alike are the known events from a place on.
pub fn ends(file: &[u8], spans: &[u32], v: Version, first: usize, stop: usize) -> Ends
    requires { (is_newer v ≡ true) × (length spans.now ≡ 256) × (stop ≤ length file.now) × SomeCovers file.now spans.now first stop }
    ensures { (raw : List Ev) → Covers file.now spans.now first stop raw → EndsRead file.now v raw result }
{
    let one = next_known(file, spans, first, stop);
    if one == stop {
        return Ends::Good { count: 0, at: 0 };
    }
    if is_right(file, spans, v, one, stop) {
        let at = one + 1;
        let two = next_known(file, spans, one + span_of(spans, GAME_END), stop);
        if two == stop {
            return Ends::Good { count: 1, at };
        }
        if is_again(file, spans, v, at, two, stop) {
            return Ends::Good { count: 2, at };
        }
    }
    Ends::Wrong
}
