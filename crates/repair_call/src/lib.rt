// The calls: what a file's longest beginning is, and that beginning as a file of its own.
#![tactic(auto)]

ghost use Rattle.std.specs.Prelude.{◌≡◌, cond, [], ◌∷◌, ◌++◌, ◌+◌, ◌-◌, ◌≤◌, length, drop};
ghost use Rattle.wire.specs.Wire.{splice, Wrote};
ghost use Rattle.repair_call.specs.Outcome.{unrepaired, repair_of, RepairMeasured, RepairOutcome};
ghost use Rattle.repair_call.specs.Inner.{brace_for, behind_of, Told, Fits, front_of};

use check_file::tail::is_tail;
use format::refusal::SHORT_OUTPUT;
use measure::tail::tail_kind;
use repair_judge::judge;
use repair_walk::pass_events;

// 0 or why nothing is kept; which tail the file has then, what its length field said and says then, how many bytes it has then; how many
// events and how many bytes of events are kept; how many events, and how many bytes behind those kept, are not.
#[repr(C)]
#[derive(Clone, Copy)]
pub struct Repaired {
    pub refused: u8,
    pub tail: u8,
    pub said: u32,
    pub length: u32,
    pub bytes: usize,
    pub events: usize,
    pub event_bytes: usize,
    pub dropped_events: usize,
    pub dropped_bytes: usize,
}

// Which tail goes behind what is kept, how long it is, and how many bytes are not kept.
#[derive(Clone, Copy)]
pub struct Behind {
    pub tail: u8,
    pub len: usize,
    pub dropped: usize,
}

fn refused(number: u8) -> Repaired
    ensures { result ≡ unrepaired number }
{
    Repaired {
        refused: number,
        tail: 0,
        said: 0,
        length: 0,
        bytes: 0,
        events: 0,
        event_bytes: 0,
        dropped_events: 0,
        dropped_bytes: 0,
    }
}

// Nothing of what stands behind a place is kept.
fn replaced(file: &[u8], p: usize) -> Behind
    requires { p ≤ length file.now }
    ensures { result ≡ brace_for file.now p }
{
    Behind {
        tail: 2,
        len: 1,
        dropped: file.len() - p,
    }
}

// What stands behind a place, where no event does.
fn stands_behind(file: &[u8], p: usize, alone: bool) -> Behind
    requires { p ≤ length file.now }
    ensures { result ≡ behind_of alone file.now p }
{
    if alone {
        if is_tail(file, p) {
            let tail = tail_kind(file, p);
            return Behind {
                tail,
                len: file.len() - p,
                dropped: 0,
            };
        }
        return replaced(file, p);
    }
    replaced(file, p)
}

// A beginning in numbers.
fn described(file: &[u8], spans: &[u32], first: usize, p: usize) -> Repaired
    requires { Told file.now spans.now first p }
    ensures { result ≡ repair_of file.now p }
{
    let kept = pass_events(file, spans, first, p);
    let rest = pass_events(file, spans, p, file.len());
    let b = stands_behind(file, p, rest.events == 0);
    let said = wire::get_be(file, 11, 4);
    Repaired {
        refused: 0,
        tail: b.tail,
        said,
        length: (p - 15) as u32,
        bytes: p + b.len,
        events: kept.events,
        event_bytes: p - first,
        dropped_events: rest.events,
        dropped_bytes: b.dropped,
    }
}

// What `repair` would give, in numbers.
pub fn measure_repair(file: &[u8]) -> Repaired
    ensures { RepairMeasured file.now result }
{
    let mut spans = [0u32; 256];
    let j = judge(file, &mut spans);
    if j.refused != 0 {
        return refused(j.refused);
    }
    described(file, &spans, j.first, j.stop)
}

// The file up to a place, with the length that says so.
fn put_front(file: &[u8], out: &mut [u8], p: usize) -> usize
    requires { Fits file.now out.old p }
    ensures { Wrote out.old out.new 0 result (front_of file.now p) }
{
    let length = (p - 15) as u32;
    let mut at = wire::put_bytes(out, 0, &file[..11]);
    at = wire::put_u32(out, at, length);
    wire::put_bytes(out, at, &file[15..p])
}

// And its tail.
fn put_repaired(file: &[u8], out: &mut [u8], p: usize, own: bool)
    requires { Fits file.now out.old p × (p + cond own (length file.now - p) 1 ≤ length out.old) }
    ensures { out.new ≡ splice out.old 0 (front_of file.now p ++ cond own (drop p file.now) (0x7d ∷ [])) }
{
    let at = put_front(file, out, p);
    if own {
        let n = file.len();
        let end = wire::put_bytes(out, at, &file[p..n]);
    } else {
        let end = wire::put_u8(out, at, 0x7d);
    }
}

// The longest beginning of a file's events that is a replay, as a file of its own.
pub fn repair(file: &[u8], out: &mut [u8]) -> Repaired
    ensures { RepairOutcome file.now out.old result out.new }
{
    let m = measure_repair(file);
    if m.refused != 0 {
        return m;
    }
    if out.len() < m.bytes {
        return refused(SHORT_OUTPUT);
    }
    let p = 15 + m.length as usize;
    put_repaired(file, out, p, m.tail != 2);
    m
}
