// The frames of a file's events in one pass.
#![tactic(auto)]

ghost use Rattle.std.specs.Prelude.{◌≡◌, suc, ◌≤◌, length};
ghost use Rattle.grammar.specs.Machine.{initial};
ghost use Rattle.read_order.specs.Inner.{order_of};
ghost use Rattle.read_scan.specs.Counts.{no_tally};
ghost use Rattle.read_scan.specs.Inner.{no_stage, scan, tallied, ran_of, tally_in, ends_at, tells_at};

pub mod alike;
pub mod event;
pub mod leap;
pub mod sizes;
pub mod tally;

use alike::goes_on;
use event::{Kind, Turn, kind_of, span_of, try_event};
use format::version::Version;
use layout::columns::Family;
use layout::payloads::record_size;
use leap::{begins, leapt};
use read_order::due::PortOrder;
use read_order::stage::{Stage, is_closed};
use sizes::sizes_of;
use tally::{Tally, counted, nothing};

// The frames are in order and end at a place, with what was counted, or they are wrong.
#[derive(Clone, Copy)]
pub enum Ran {
    Ended { at: usize, tally: Tally },
    Wrong,
}

// No frame began yet.
fn outset() -> Stage
    ensures { result ≡ no_stage }
{
    Stage {
        rank: 8,
        id: 0,
        pre: 0,
        due: 0,
    }
}

// The frames end at a place, where a frame may end there.
fn ended(v: Version, m: Stage, at: usize, t: Tally) -> Ran
    ensures { (ran_of result ≡ ends_at v m at) × (tally_in result ≡ tells_at v m t) }
{
    if is_closed(v, m) {
        return Ran::Ended { at, tally: t };
    }
    Ran::Wrong
}

// The frames from a place on, in one pass. Spans are by code: one more than the payloads' sizes, 0 where the table lacks the code. How far
// each turn goes is read from the file, so that the places are no range.
pub fn frames(
    file: &[u8],
    spans: &[u32],
    v: Version,
    order: PortOrder,
    first: usize,
    stop: usize,
) -> Ran
    requires { (first ≤ stop) × (stop ≤ length file.now) × (length spans.now ≡ 256) }
    ensures { (ran_of result ≡ scan v (order_of order) file.now spans.now stop (suc stop) first initial)
        × (tally_in result ≡ tallied v (order_of order) file.now spans.now stop (suc stop) first initial no_tally) }
{
    let sizes = sizes_of(v);
    let span = 1 + record_size(Family::Pre, v);
    let mut m = outset();
    let mut at = first;
    let mut last = first;
    let mut tally = nothing();
    while at < stop {
        let code = file[at];
        if goes_on(file, spans, v, m, code, last, at, stop) {
            let far = leapt(file, m, tally, last, at);
            tally = far.tally;
            m = far.stage;
            last += far.by;
            at += far.by;
            continue;
        }
        let k = kind_of(code);
        let Kind::Frame(family) = k else {
            return ended(v, m, at, tally);
        };
        let n = span_of(spans, code);
        let t = try_event(file, v, &sizes[..], order, span, stop, m, at, n, family);
        match t {
            Turn::Refused => {
                return Ran::Wrong;
            }
            Turn::Goes { stage, next, word } => {
                tally = counted(tally, m, family, word);
                last = begins(family, last, at);
                m = stage;
                at = next;
            }
        }
    }
    ended(v, m, at, tally)
}
