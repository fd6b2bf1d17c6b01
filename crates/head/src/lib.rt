// What every reader of a replay shares: the head of a file with its payload table, read once (`table`), and one step inside the event
// data by what the head gave.
#![tactic(auto)]

ghost use Rattle.std.specs.Prelude.{◌≡◌, ◌≤◌, ◌<◌, length, get_or};
ghost use Rattle.head.specs.Step.{event_in, step_of};
ghost use Rattle.head.specs.Inner.{Agree, Opened, Advances};

use format::refusal::{BAD_PLACE, UNKNOWN_EVENT};

pub mod table;

// What stands at a place.
#[derive(Clone, Copy)]
pub enum Step {
    Event {
        code: u8,
        at: usize,
        payload: usize,
        len: usize,
        next: usize,
    },
    Ends,
    Cut,
    Refused {
        number: u8,
        offset: usize,
    },
}

// How many entries of the table are tried before its index. In a written table the events of a frame are among the first seven, and a
// comparison that the processor foresees costs less than waiting for the index.
const NEAR: usize = 7;

pub fn near(len: usize) -> usize
    ensures { result ≤ len }
{
    len.min(NEAR)
}

// How many bytes an event of this code takes: by n entries of the table, or by its index.
fn span_at(codes: &[u8], sizes: &[u16], n: usize, spans: &[u32], code: u8) -> usize
    requires { (n ≤ length codes.now) × (n ≤ length sizes.now) × Agree codes.now sizes.now n spans.now × (length spans.now ≡ 256) }
    ensures { result ≡ get_or spans.now code 0 }
{
    for i in 0..n {
        if codes[i] == code {
            return table::span(sizes[i]) as usize;
        }
    }
    spans[code as usize] as usize
}

// What stands at a place inside the event data, where an event of its code takes so many bytes.
fn event_at(code: u8, span: usize, place: usize, stop: usize, whole: bool) -> Step
    requires { place < stop }
    ensures { (result ≡ event_in stop whole place code span) × Advances place stop result }
{
    if span == 0 {
        return Step::Refused {
            number: UNKNOWN_EVENT,
            offset: place,
        };
    }
    if span <= stop - place {
        return Step::Event {
            code,
            at: place,
            payload: place + 1,
            len: span - 1,
            next: place + span,
        };
    }
    if whole {
        Step::Refused {
            number: BAD_PLACE,
            offset: place,
        }
    } else {
        Step::Cut
    }
}

// What stands at a place of a file, by what its head gave. The table's arrays are lent: a walk calls this at every event, and handing the
// table over by value each time would take twice as long.
pub fn in_data<'a>(
    codes: &'a [u8],
    sizes: &'a [u16],
    n: usize,
    spans: &[u32],
    first: usize,
    stop: usize,
    whole: bool,
    file: &[u8],
    place: usize,
) -> Step
    requires { Opened codes.now sizes.now n spans.now first stop whole file.now }
    ensures { (result ≡ step_of file.now place) × Advances place stop result }
{
    if place < first || stop < place {
        return Step::Refused {
            number: BAD_PLACE,
            offset: place,
        };
    }
    if place == stop {
        if whole {
            return Step::Ends;
        } else {
            return Step::Cut;
        }
    }
    let code = file[place];
    event_at(
        code,
        span_at(codes, sizes, n, spans, code),
        place,
        stop,
        whole,
    )
}
