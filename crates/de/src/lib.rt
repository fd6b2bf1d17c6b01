// The reader: one step, and the walk of a replay, whole or cut.
#![tactic(auto)]

ghost use Rattle.std.specs.Prelude.{◌≡◌, ◌≤◌};
ghost use Rattle.head.specs.Step.{step_of};
ghost use Rattle.head.specs.Numbers.{step_numbers};
ghost use Rattle.head.specs.Inner.{Opened};
ghost use Rattle.de.specs.Walk.{run_of, answer_at, walk_of};
ghost use Rattle.de.specs.Numbers.{walk_numbers};
ghost use Rattle.de.specs.Inner.{stopped};

use head::Step;

// What a whole walk answers.
#[derive(Clone, Copy)]
pub enum Walked {
    Done {
        events: usize,
        stray: usize,
        whole: bool,
        place: usize,
    },
    Refused {
        number: u8,
        offset: usize,
    },
}

// What the walking loop yields: its place, how many events it passed, and what stands there.
#[derive(Clone, Copy)]
struct Stop {
    place: usize,
    events: usize,
    last: Step,
}

// One reader call: what stands at a place of a file.
pub fn step_at(file: &[u8], place: usize) -> Step
    ensures { step_numbers result ≡ step_numbers (step_of file.now place) }
{
    let mut spans = [0u32; 256];
    let h = head::table::parse_head(file, &mut spans);
    if h.refusal != 0 {
        return Step::Refused {
            number: h.refusal,
            offset: h.offset,
        };
    }
    let n = head::near(h.table.len);
    head::in_data(
        &h.table.codes,
        &h.table.sizes,
        n,
        &spans,
        h.first,
        h.stop,
        h.whole,
        file,
        place,
    )
}

// The walking loop: one step after another from the first event on, until one is no event.
fn walk_events<'a>(
    codes: &'a [u8],
    sizes: &'a [u16],
    n: usize,
    spans: &[u32],
    first: usize,
    stop: usize,
    whole: bool,
    file: &[u8],
) -> Stop
    requires { Opened codes.now sizes.now n spans.now first stop whole file.now }
    ensures { (result ≡ stopped (run_of file.now)) × (result.place ≤ stop) }
{
    let mut place = first;
    let mut events: usize = 0;
    let done = loop {
        let last = head::in_data(codes, sizes, n, spans, first, stop, whole, file, place);
        let Step::Event {
            code: _,
            at: _,
            payload: _,
            len: _,
            next,
        } = last
        else {
            break Stop {
                place,
                events,
                last,
            };
        };
        place = next;
        events += 1;
    };
    done
}

// What the walk answers of the place where its loop stopped.
fn finish(done: Stop, stop: usize) -> Walked
    requires { done.place ≤ stop }
    ensures { result ≡ answer_at stop done.events done.place done.last }
{
    let last = done.last;
    match last {
        Step::Ends => Walked::Done {
            events: done.events,
            stray: 0,
            whole: true,
            place: done.place,
        },
        Step::Refused { number, offset } => Walked::Refused { number, offset },
        // No walk stops at an event.
        Step::Cut
        | Step::Event {
            code: _,
            at: _,
            payload: _,
            len: _,
            next: _,
        } => Walked::Done {
            events: done.events,
            stray: stop - done.place,
            whole: false,
            place: done.place,
        },
    }
}

// The whole reader: the events of a file, from its table's end on.
pub fn walk(file: &[u8]) -> Walked
    ensures { walk_numbers result ≡ walk_numbers (walk_of file.now) }
{
    let mut spans = [0u32; 256];
    let h = head::table::parse_head(file, &mut spans);
    if h.refusal != 0 {
        return Walked::Refused {
            number: h.refusal,
            offset: h.offset,
        };
    }
    let n = head::near(h.table.len);
    let done = walk_events(
        &h.table.codes,
        &h.table.sizes,
        n,
        &spans,
        h.first,
        h.stop,
        h.whole,
        file,
    );
    finish(done, h.stop)
}
