// The events of a file from a place on, as far as they are listed and whole.
#![tactic(auto)]

ghost use Rattle.std.specs.Prelude.{◌≡◌, suc, ◌≤◌, length};
ghost use Rattle.repair_walk.specs.Inner.{is_whole, passed_from};

use read_scan::event::span_of;

// Where they stop, and how many they are.
#[derive(Clone, Copy)]
pub struct Passed {
    pub place: usize,
    pub events: usize,
}

// Whether an event that is listed stands whole before stop.
pub fn is_whole(file: &[u8], spans: &[u32], at: usize, stop: usize) -> bool
    requires { (stop ≤ length file.now) × (length spans.now ≡ 256) }
    ensures { result ≡ is_whole file.now spans.now stop at }
{
    if at < stop {
        let n = span_of(spans, file[at]);
        if 0 < n {
            return n <= stop - at;
        }
    }
    false
}

// The events from a place on.
pub fn pass_events(file: &[u8], spans: &[u32], first: usize, stop: usize) -> Passed
    requires { (first ≤ stop) × (stop ≤ length file.now) × (length spans.now ≡ 256) }
    ensures { result ≡ passed_from file.now spans.now stop (suc stop) first 0 }
{
    let mut at = first;
    let mut events: usize = 0;
    // A `while`: each event's span says where the next one stands.
    while is_whole(file, spans, at, stop) {
        at += span_of(spans, file[at]);
        events += 1;
    }
    Passed { place: at, events }
}
