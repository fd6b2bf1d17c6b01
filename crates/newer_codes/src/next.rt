// Events whose codes are unknown are passed over.
ghost use Rattle.std.specs.Prelude.{List, ◌≤◌};
ghost use Rattle.format.specs.File.{Ev};
ghost use Rattle.read_judge.specs.Inner.{Covers};
ghost use Rattle.newer_codes.specs.Places.{Laid, Passed};

use known::is_known;
use read_scan::event::span_of;

// Where the first known event from a place on stands, or stop.
pub fn next_known(file: &[u8], spans: &[u32], at: usize, stop: usize) -> usize
    requires { Laid file.now spans.now at stop }
    ensures { (at ≤ result) × Laid file.now spans.now result stop
        × ((raw : List Ev) → Covers file.now spans.now at stop raw → Passed at raw result) }
{
    let mut p = at;
    while p < stop {
        let code = file[p];
        if is_known(code) {
            return p;
        }
        p += span_of(spans, code);
    }
    p
}
