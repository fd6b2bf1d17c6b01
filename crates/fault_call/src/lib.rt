// The call: why a file is no replay that can be read into columns, as a place and a reason.
#![tactic(auto)]

ghost use Rattle.std.specs.Prelude.{◌≡◌, true, cond, leb};
ghost use Rattle.format.specs.Version.{accepted_of};
ghost use Rattle.start.specs.Length.{length_of};
ghost use Rattle.head.specs.Table.{head_refusal};
ghost use Rattle.read_judge.specs.Inner.{Headed, first_at};
ghost use Rattle.read_judge.specs.declared.first.First.TheVariants.{Opens, Other};
ghost use Rattle.fault_call.specs.Outcome.{fault_of, FaultOutcome};

use fault_reason::Fault;
use fault_scan::pass::{is_whole, pass};
use format::refusal::BAD_EVENTS;
use format::version::Version;
use measure::measuring::measure;
use read_judge::first::{First, first_event};
use read_judge::parts::start_fits;
use start::length::block_length;

// 0 or the refusal that `measure` gives. Where it is 19, why: a reason, how many events stand before the fault, and the byte of the faulty event, or of
// the end of the events where no event is faulty; of a newer recorder's file (above 3.18.0) reason, event and offset are 0.
#[repr(C)]
#[derive(Clone, Copy)]
pub struct Faulted {
    pub refused: u8,
    pub reason: u8,
    pub event: usize,
    pub offset: usize,
}

// A first event at a place that is no start of a replay, or is none at all.
fn unopened(file: &[u8], spans: &[u32], first: usize, stop: usize, whole: bool) -> Fault
    requires { Headed file.now spans.now first stop whole × (first_at file.now spans.now first stop ≡ Other) }
    ensures { result ≡ fault_of file.now }
{
    if is_whole(file, spans, first, stop) {
        return Fault {
            reason: 16,
            event: 0,
            offset: first,
        };
    }
    Fault {
        reason: 14,
        event: 0,
        offset: first,
    }
}

// A start whose block of so many bytes is wrong.
fn start_reason(v: Version, len: usize) -> u8
    ensures { result ≡ cond (leb (length_of v) len) 9 17 }
{
    if block_length(v) <= len {
        return 9;
    }
    17
}

// A file whose first event is a GameStart of a version up to 3.18.0.
fn opened(
    file: &[u8],
    spans: &[u32],
    first: usize,
    stop: usize,
    whole: bool,
    v: Version,
    len: usize,
) -> Fault
    requires { Headed file.now spans.now first stop whole × (first_at file.now spans.now first stop ≡ Opens v len) × (accepted_of v ≡ true) }
    ensures { result ≡ fault_of file.now }
{
    if start_fits(file, first + 1, len, v) {
        return pass(file, spans, v, whole, first + 1 + len, stop);
    }
    let reason = start_reason(v, len);
    Fault {
        reason,
        event: 0,
        offset: first,
    }
}

// A file whose first event is a GameStart. Of a newer recorder's events nothing is told.
fn started(
    file: &[u8],
    spans: &[u32],
    first: usize,
    stop: usize,
    whole: bool,
    v: Version,
    len: usize,
) -> Fault
    requires { Headed file.now spans.now first stop whole × (first_at file.now spans.now first stop ≡ Opens v len) }
    ensures { result ≡ fault_of file.now }
{
    if v.accepted() {
        return opened(file, spans, first, stop, whole, v, len);
    }
    Fault {
        reason: 0,
        event: 0,
        offset: 0,
    }
}

// A file whose head is accepted.
fn found_in(file: &[u8], spans: &[u32], first: usize, stop: usize, whole: bool) -> Fault
    requires { Headed file.now spans.now first stop whole }
    ensures { result ≡ fault_of file.now }
{
    let e = first_event(file, spans, first, stop);
    match e {
        First::Opens { version, len } => started(file, spans, first, stop, whole, version, len),
        First::Other => unopened(file, spans, first, stop, whole),
    }
}

// Any file.
fn found(file: &[u8]) -> Fault
    ensures { head_refusal file.now ≡ 0 → result ≡ fault_of file.now }
{
    let mut spans = [0u32; 256];
    let h = head::table::parse_head(file, &mut spans);
    if h.refusal != 0 {
        return Fault {
            reason: 0,
            event: 0,
            offset: 0,
        };
    }
    found_in(file, &spans, h.first, h.stop, h.whole)
}

// Why `measure` gives 19.
pub fn fault(file: &[u8]) -> Faulted
    ensures { FaultOutcome file.now result }
{
    let m = measure(file);
    if m.refused != BAD_EVENTS {
        return Faulted {
            refused: m.refused,
            reason: 0,
            event: 0,
            offset: 0,
        };
    }
    let x = found(file);
    Faulted {
        refused: BAD_EVENTS,
        reason: x.reason,
        event: x.event,
        offset: x.offset,
    }
}
