// One event, wherever a replay stands.
ghost use Rattle.std.specs.Prelude.{◌≡◌, ◌+◌, ◌*◌, ◌^◌, ◌≤◌, ◌<◌, length, get_or};
ghost use Rattle.format.specs.Event.{code_of};
ghost use Rattle.format.specs.declared.event.Event.TheVariants.{GeckoCodes, MessageSplitter};
ghost use Rattle.layout.specs.Payloads.{end_size};
ghost use Rattle.read_order.specs.Inner.{state_in};
ghost use Rattle.read_scan.specs.Inner.{no_stage, sizes_in};
ghost use Rattle.fault_reason.specs.Fault.{coding, ending};
ghost use Rattle.fault_scan.specs.Inner.{ev_at, payload_at, Here, Known, FirstEnd, Fits, FramesOf, stands_in, Turns};

use crate::around::{Block, Closing, block_turn, first_end, second_end};
use crate::row::{Row, row_turn};
use crate::standing::{Standing, Turned};
use fault_reason::around::{other_reason, third_reason};
use format::event::MESSAGE_SPLITTER;
use format::version::Version;
use layout::payloads::end_size;
use read_order::stage::Stage;
use read_outline::listed_right;
use read_scan::event::{Kind, kind_of};
use read_scan::tally::{Tally, nothing};

// No frame began yet.
fn outset() -> Stage
    ensures { result ≡ no_stage }
{
    Stage {
        rank: 8,
        id: 0,
        pre: 0,
        due: 0,
    }
}

// The first end from a place to the next, or anything else that is none of a frame's.
fn end_turn(file: &[u8], v: Version, span: usize, m: Stage, at: usize, next: usize) -> Closing
    requires { (at < next) × (next ≤ length file.now) }
    ensures { FirstEnd v (state_in file.now span m) (ev_at file.now at next) result }
{
    first_end(file, &file[at + 1..next], v, span, m, file[at])
}

// Among frames.
fn frames_turn(
    file: &[u8],
    spans: &[u32],
    v: Version,
    sizes: &[usize],
    span: usize,
    stop: usize,
    m: Stage,
    t: Tally,
    at: usize,
    next: usize,
) -> Turned
    requires { Here v file.now spans.now span stop at next × Known v file.now span stop m t at × (sizes.now ≡ sizes_in v) × (next < at + 2 ^ 32) }
    ensures { FramesOf v file.now span stop (state_in file.now span m) t (ev_at file.now at next) next result }
{
    let k = kind_of(file[at]);
    match k {
        Kind::Frame(family) => {
            let r = row_turn(file, spans, v, sizes, span, stop, m, t, family, at, next);
            match r {
                Row::Goes { stage, tally } => Turned::Goes {
                    standing: Standing::Framing { stage, tally },
                },
                Row::Wrong { reason } => Turned::Wrong { reason },
            }
        }
        Kind::Other => {
            let c = end_turn(file, v, span, m, at, next);
            match c {
                Closing::Comes => Turned::Goes {
                    standing: Standing::Ending { at },
                },
                Closing::Wrong { reason } => Turned::Wrong { reason },
            }
        }
    }
}

// A block of codes after n full ones.
fn coded_turn(
    file: &[u8],
    spans: &[u32],
    v: Version,
    span: usize,
    stop: usize,
    n: usize,
    at: usize,
    next: usize,
) -> Turned
    requires { Here v file.now spans.now span stop at next × (512 * n ≤ at) × (get_or file.now at 0 ≡ code_of MessageSplitter) }
    ensures { Turns v file.now span stop (get_or spans.now (code_of GeckoCodes) 0) (coding n) (ev_at file.now at next) next result }
{
    let b = block_turn(&file[at + 1..next], spans, v, n);
    match b {
        Block::Full => Turned::Goes {
            standing: Standing::Coding { blocks: n + 1 },
        },
        Block::Last => {
            let stage = outset();
            let tally = nothing();
            Turned::Goes {
                standing: Standing::Framing { stage, tally },
            }
        }
        Block::Wrong { reason } => Turned::Wrong { reason },
    }
}

// Before any frame.
fn coding_turn(
    file: &[u8],
    spans: &[u32],
    v: Version,
    sizes: &[usize],
    span: usize,
    stop: usize,
    n: usize,
    at: usize,
    next: usize,
) -> Turned
    requires { Here v file.now spans.now span stop at next × (512 * n ≤ at) × (sizes.now ≡ sizes_in v) × (next < at + 2 ^ 32) }
    ensures { Turns v file.now span stop (get_or spans.now (code_of GeckoCodes) 0) (coding n) (ev_at file.now at next) next result }
{
    if file[at] == MESSAGE_SPLITTER {
        return coded_turn(file, spans, v, span, stop, n, at, next);
    }
    if n == 0 {
        if listed_right(spans, v, 0, 0) {
            return frames_turn(
                file,
                spans,
                v,
                sizes,
                span,
                stop,
                outset(),
                nothing(),
                at,
                next,
            );
        }
        return Turned::Wrong { reason: 19 };
    }
    let reason = other_reason(file[at]);
    Turned::Wrong { reason }
}

// Behind an end at a place.
fn ending_turn(
    file: &[u8],
    spans: &[u32],
    v: Version,
    span: usize,
    stop: usize,
    place: usize,
    at: usize,
    next: usize,
) -> Turned
    requires { Here v file.now spans.now span stop at next × (place + (1 + end_size v) ≤ at) }
    ensures { Turns v file.now span stop (get_or spans.now (code_of GeckoCodes) 0) (ending (payload_at file.now place (end_size v))) (ev_at file.now at next) next result }
{
    let size = end_size(v);
    let c = second_end(
        &file[place + 1..place + 1 + size],
        &file[at + 1..next],
        v,
        file[at],
    );
    match c {
        Closing::Comes => Turned::Goes {
            standing: Standing::Over,
        },
        Closing::Wrong { reason } => Turned::Wrong { reason },
    }
}

// Anywhere.
pub fn turn(
    file: &[u8],
    spans: &[u32],
    v: Version,
    sizes: &[usize],
    span: usize,
    stop: usize,
    x: Standing,
    at: usize,
    next: usize,
) -> Turned
    requires { Here v file.now spans.now span stop at next × Fits v file.now span stop x at × (sizes.now ≡ sizes_in v) × (next < at + 2 ^ 32) }
    ensures { Turns v file.now span stop (get_or spans.now (code_of GeckoCodes) 0) (stands_in v file.now span stop x) (ev_at file.now at next) next result }
{
    match x {
        Standing::Coding { blocks } => coding_turn(
            file, spans, v, sizes, span, stop, blocks, at, next,
        ),
        Standing::Framing { stage, tally } => frames_turn(
            file, spans, v, sizes, span, stop, stage, tally, at, next,
        ),
        Standing::Ending { at: place } => ending_turn(file, spans, v, span, stop, place, at, next),
        Standing::Over => {
            let reason = third_reason(&file[at + 1..next], file[at]);
            Turned::Wrong { reason }
        }
    }
}
