// The events of a file from a place on, in one pass, up to the first that may not come.
ghost use Rattle.std.specs.Prelude.{◌≡◌, true, ◌≤◌, length, get_or, cond};
ghost use Rattle.format.specs.Event.{code_of};
ghost use Rattle.format.specs.declared.event.Event.TheVariants.{GeckoCodes};
ghost use Rattle.fault_reason.specs.Fault.{coding, fault_from};
ghost use Rattle.fault_scan.specs.Inner.{is_whole, done_at, events_from, Passed};

use crate::standing::{Standing, Turned};
use crate::turn::turn;
use fault_reason::Fault;
use format::version::Version;
use layout::columns::Family;
use layout::payloads::record_size;
use read_order::stage::is_closed;
use read_outline::listed_right;
use read_scan::event::span_of;
use read_scan::sizes::sizes_of;

// Whether an event that is listed stands whole before stop.
pub fn is_whole(file: &[u8], spans: &[u32], at: usize, stop: usize) -> bool
    requires { (stop ≤ length file.now) × (length spans.now ≡ 256) }
    ensures { result ≡ is_whole file.now spans.now stop at }
{
    if at < stop {
        let n = span_of(spans, file[at]);
        if 0 < n {
            return n <= stop - at;
        }
    }
    false
}

// Whether a replay may end here.
fn is_done(spans: &[u32], v: Version, x: Standing) -> bool
    requires { length spans.now ≡ 256 }
    ensures { result ≡ done_at v (get_or spans.now (code_of GeckoCodes) 0) x }
{
    match x {
        Standing::Coding { blocks } => {
            if blocks == 0 {
                return listed_right(spans, v, 0, 0);
            }
            false
        }
        Standing::Framing { stage, tally: _ } => is_closed(v, stage),
        Standing::Ending { at: _ } => true,
        Standing::Over => true,
    }
}

// Why a replay is none, of which all events came.
fn last_reason(spans: &[u32], v: Version, x: Standing, whole: bool) -> u8
    requires { length spans.now ≡ 256 }
    ensures { result ≡ cond (done_at v (get_or spans.now (code_of GeckoCodes) 0) x) (cond whole 0 15) 14 }
{
    if is_done(spans, v, x) {
        if whole {
            return 0;
        }
        return 15;
    }
    14
}

// The events from a place on, behind a start.
pub fn pass(file: &[u8], spans: &[u32], v: Version, whole: bool, first: usize, stop: usize) -> Fault
    requires { Passed file.now spans.now stop whole first }
    ensures { result ≡ fault_from v (get_or spans.now (code_of GeckoCodes) 0) whole (coding 0) 1 first (events_from file.now first 1) }
{
    let sizes = sizes_of(v);
    let span = 1 + record_size(Family::Pre, v);
    let mut x = Standing::Coding { blocks: 0 };
    let mut at = first;
    let mut events: usize = 1;
    while is_whole(file, spans, at, stop) {
        let next = at + span_of(spans, file[at]);
        let t = turn(file, spans, v, &sizes[..], span, stop, x, at, next);
        match t {
            Turned::Wrong { reason } => {
                return Fault {
                    reason,
                    event: events,
                    offset: at,
                };
            }
            Turned::Goes { standing } => {
                x = standing;
                at = next;
                events += 1;
            }
        }
    }
    let reason = last_reason(spans, v, x, whole);
    Fault {
        reason,
        event: events,
        offset: at,
    }
}
