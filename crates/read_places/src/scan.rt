// The places of players' events: of one frame, and of several frames that have as many.
ghost use Rattle.std.specs.Prelude.{◌≡◌, true, cond, ◌+◌, ◌*◌, ◌≤◌, ◌<◌, length, set};
ghost use Rattle.grammar.specs.WellFormed.{Each};
ghost use Rattle.read_event.specs.Inner.{told_at};
ghost use Rattle.read_event.specs.Parts.{SomeBy, WholeBy, open_told};
ghost use Rattle.read_places.specs.Inner.{is_players, open_of, Scanned, Batched, Stays};

use format::event::{FRAME_POST, FRAME_PRE, FRAME_START};
use read_event::marks::{is_first, opened};
use read_event::seen::Open;
use read_event::spans::{Spans, span_of};

// One frame's: the place behind its events, how many of them are players', and what began with it.
#[derive(Clone, Copy)]
pub struct Scan {
    pub next: usize,
    pub count: usize,
    pub opened: Open,
}

// Several frames': the place behind them, how many players' events each has, how many frames they are, which the first one is, and what began last.
#[derive(Clone, Copy)]
pub struct Batch {
    pub next: usize,
    pub count: usize,
    pub many: usize,
    pub first: usize,
    pub opened: Open,
}

// Whether an event is a player's.
pub fn is_players(code: u8) -> bool
    ensures { result ≡ is_players code }
{
    if code == FRAME_PRE {
        return true;
    }
    code == FRAME_POST
}

// What began after the event at a place.
fn open_at(file: &[u8], at: usize, start: bool, frames: usize, o: Open) -> Open
    requires { (at + 5 ≤ length file.now) × (o.frames ≤ frames) }
    ensures { (result ≡ open_told start frames o (told_at file.now at)) × (result.frames ≤ frames) }
{
    let id = wire::get_be(file, at + 1, 4);
    let on = is_first(start, frames, o, file[at], id);
    opened(on, id, o, frames)
}

// Whether the event at a place is of the frame that began last, and the table has room.
fn stays(file: &[u8], e: usize, stop: usize, start: bool, frames: usize, o: Open, j: usize) -> bool
    requires { e < stop → e + 5 ≤ length file.now }
    ensures { result ≡ true → Stays start frames file.now e stop o j }
{
    if stop <= e {
        return false;
    }
    if 16 <= j {
        return false;
    }
    let code = file[e];
    if start {
        return code != FRAME_START;
    }
    if code != FRAME_PRE {
        return true;
    }
    if o.frames == 0 {
        return false;
    }
    wire::get_be(file, e + 1, 4) == o.id
}

// A player's event's place into the table. Answers how many there are then.
fn note(places: &mut [usize], code: u8, e: usize, t: usize, j: usize) -> usize
    requires { (j * 8 + t < length places.old) × (j < 16) }
    ensures { (result ≡ cond (is_players code) (j + 1) j)
        × (places.new ≡ cond (is_players code) (set places.old (j * 8 + t) e) places.old) }
{
    if is_players(code) {
        places[j * 8 + t] = e;
        return j + 1;
    }
    j
}

// The players' events of the frame whose first event stands at a place, into column t.
fn scan_frame(
    file: &[u8],
    z: Spans,
    start: bool,
    frames: usize,
    at: usize,
    stop: usize,
    was: usize,
    id: u32,
    t: usize,
    places: &mut [usize],
) -> Scan
    requires { (t < 8)
        × (128 ≤ length places.old)
        × (at < stop)
        × (was ≤ frames)
        × SomeBy z file.now at stop
        × Each (WholeBy z file.now) places.old }
    ensures { Scanned z start frames file.now at stop (open_of was id) t places.old places.new result }
{
    let o = Open { frames: was, id };
    let begun = open_at(file, at, start, frames, o);
    let mut j = note(places, file[at], at, t, 0);
    let mut e = at + span_of(z, file[at]);
    let mut on = stays(file, e, stop, start, frames, begun, j);
    // Each event's own code says how far the next one is: no range or step counts them.
    while on {
        let code = file[e];
        j = note(places, code, e, t, j);
        e += span_of(z, code);
        on = stays(file, e, stop, start, frames, begun, j);
    }
    Scan {
        next: e,
        count: j,
        opened: begun,
    }
}

// The frame at a place, and as many as follow it, up to eight in all, that have as many players' events, each the next frame.
pub fn find_frames(
    file: &[u8],
    z: Spans,
    start: bool,
    frames: usize,
    at: usize,
    stop: usize,
    was: usize,
    id: u32,
    places: &mut [usize],
) -> Batch
    requires { (128 ≤ length places.old)
        × (at < stop)
        × (was ≤ frames)
        × SomeBy z file.now at stop
        × Each (WholeBy z file.now) places.old
        × (frames ≤ 1048576) }
    ensures { Batched z start frames file.now at stop (open_of was id) places.new result }
{
    let s = scan_frame(file, z, start, frames, at, stop, was, id, 0, places);
    let mut b = Batch {
        next: s.next,
        count: s.count,
        many: 1,
        first: s.opened.frames,
        opened: s.opened,
    };
    for m in 1..8 {
        if stop <= b.next {
            return b;
        }
        let o = b.opened;
        let x = scan_frame(
            file, z, start, frames, b.next, stop, o.frames, o.id, m, places,
        );
        if x.count != b.count {
            return b;
        }
        if x.opened.frames != b.first + m {
            return b;
        }
        b.next = x.next;
        b.many = m + 1;
        b.opened = x.opened;
    }
    b
}
