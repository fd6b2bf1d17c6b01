// The frames from a place on, as far as they are in order, and the last place where a replay may end.
ghost use Rattle.std.specs.Prelude.{◌≡◌, suc, ◌≤◌, length};
ghost use Rattle.grammar.specs.Machine.{initial};
ghost use Rattle.read_scan.specs.Counts.{no_tally};
ghost use Rattle.read_scan.specs.Inner.{no_stage};
ghost use Rattle.repair_scan.specs.Inner.{reached};

use crate::rest::settled;
use format::version::Version;
use layout::columns::Family;
use layout::payloads::record_size;
use read_order::due::PortOrder;
use read_order::stage::Stage;
use read_scan::event::{Kind, Turn, kind_of, span_of, try_event};
use read_scan::sizes::sizes_of;
use read_scan::tally::{counted, nothing};

// Where the frames stop, and the last place up to there where a replay may end.
#[derive(Clone, Copy)]
pub struct Reached {
    pub at: usize,
    pub best: usize,
}

// No frame began yet.
fn outset() -> Stage
    ensures { result ≡ no_stage }
{
    Stage {
        rank: 8,
        id: 0,
        pre: 0,
        due: 0,
    }
}

// The frames from a place on, in one pass, up to the first event that cannot come.
pub fn furthest(file: &[u8], spans: &[u32], v: Version, first: usize, stop: usize) -> Reached
    requires { (first ≤ stop) × (stop ≤ length file.now) × (length spans.now ≡ 256) }
    ensures { (result ≡ reached v file.now spans.now stop (suc stop) first initial no_tally 0) × (result.at ≤ stop) }
{
    let sizes = sizes_of(v);
    let span = 1 + record_size(Family::Pre, v);
    let mut m = outset();
    let mut at = first;
    let mut best: usize = 0;
    let mut tally = nothing();
    while at < stop {
        best = settled(v, m, tally, at, best);
        let code = file[at];
        let k = kind_of(code);
        let Kind::Frame(family) = k else {
            return Reached { at, best };
        };
        let n = span_of(spans, code);
        let t = try_event(
            file,
            v,
            &sizes[..],
            PortOrder::Ascending,
            span,
            stop,
            m,
            at,
            n,
            family,
        );
        match t {
            Turn::Refused => {
                return Reached { at, best };
            }
            Turn::Goes {
                stage: stage,
                next: next,
                word: word,
            } => {
                tally = counted(tally, m, family, word);
                m = stage;
                at = next;
            }
        }
    }
    let last = settled(v, m, tally, at, best);
    Reached { at, best: last }
}
