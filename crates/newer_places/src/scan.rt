// The places of players' events: of one frame, and of several frames that have as many. A frame begins at a FrameStart.
ghost use Rattle.std.specs.Prelude.{◌≡◌, true, cond, ◌+◌, ◌*◌, ◌≤◌, ◌<◌, length, set};
ghost use Rattle.grammar.specs.WellFormed.{Each};
ghost use Rattle.newer_events.specs.Some.{SomeCovers};
ghost use Rattle.read_event.specs.Inner.{told_at};
ghost use Rattle.read_event.specs.Parts.{WholeBy, open_told};
ghost use Rattle.read_places.specs.Inner.{is_players};
ghost use Rattle.newer_places.specs.Inner.{is_seat, Passed, Stood, Stays, Scanned, Batched};

use format::event::FRAME_START;
use read_event::marks::{is_first, opened};
use read_event::seen::Open;
use read_event::spans::Spans;
use read_places::scan::{Batch, Scan, is_players};
use read_scan::event::span_of;

// Whether an event is a player's or begins a frame.
fn is_seat(code: u8) -> bool
    ensures { result ≡ is_seat code }
{
    if is_players(code) {
        return true;
    }
    code == FRAME_START
}

// The place of the next such event, from a place on. Of what is passed over only the code is read: an unknown event may have no more.
pub fn next_seat(file: &[u8], spans: &[u32], at: usize, stop: usize) -> usize
    requires { (length spans.now ≡ 256) × SomeCovers file.now spans.now at stop }
    ensures { Passed file.now spans.now at stop result }
{
    let mut e = at;
    while e < stop {
        let code = file[e];
        if is_seat(code) {
            return e;
        }
        e += span_of(spans, code);
    }
    e
}

// What began after the event at a place.
fn open_at(file: &[u8], at: usize, frames: usize, o: Open) -> Open
    requires { (at + 5 ≤ length file.now) × (o.frames ≤ frames) }
    ensures { (result ≡ open_told true frames o (told_at file.now at)) × (result.frames ≤ frames) }
{
    let id = wire::get_be(file, at + 1, 4);
    let on = is_first(true, frames, o, file[at], id);
    opened(on, id, o, frames)
}

// Whether the event at a place is of the frame that began last, and the table has room.
fn stays(file: &[u8], e: usize, stop: usize, j: usize) -> bool
    requires { e < stop → e < length file.now }
    ensures { result ≡ true → Stays file.now e stop j }
{
    if stop <= e {
        return false;
    }
    if 16 <= j {
        return false;
    }
    file[e] != FRAME_START
}

// A player's event's place into the table. Answers how many there are then.
fn note(places: &mut [usize], code: u8, e: usize, t: usize, j: usize) -> usize
    requires { (j * 8 + t < length places.old) × (j < 16) }
    ensures { (result ≡ cond (is_players code) (j + 1) j)
        × (places.new ≡ cond (is_players code) (set places.old (j * 8 + t) e) places.old) }
{
    if is_players(code) {
        places[j * 8 + t] = e;
        return j + 1;
    }
    j
}

// The players' events of the frame whose first event stands at a place, into column t.
fn scan_frame(
    file: &[u8],
    spans: &[u32],
    z: Spans,
    frames: usize,
    at: usize,
    stop: usize,
    o: Open,
    t: usize,
    places: &mut [usize],
) -> Scan
    requires { (t < 8)
        × (128 ≤ length places.old)
        × (at < stop)
        × (o.frames ≤ frames)
        × (length spans.now ≡ 256)
        × Stood z file.now spans.now at stop
        × Each (WholeBy z file.now) places.old }
    ensures { Scanned z frames file.now spans.now at stop o t places.old places.new result }
{
    let begun = open_at(file, at, frames, o);
    let mut j = note(places, file[at], at, t, 0);
    let mut e = next_seat(file, spans, at + span_of(spans, file[at]), stop);
    let mut on = stays(file, e, stop, j);
    while on {
        let code = file[e];
        j = note(places, code, e, t, j);
        e = next_seat(file, spans, e + span_of(spans, code), stop);
        on = stays(file, e, stop, j);
    }
    Scan {
        next: e,
        count: j,
        opened: begun,
    }
}

// The frame at a place, and as many as follow it, up to eight in all, that have as many players' events, each the next frame.
pub fn find_frames(
    file: &[u8],
    spans: &[u32],
    z: Spans,
    frames: usize,
    at: usize,
    stop: usize,
    o: Open,
    places: &mut [usize],
) -> Batch
    requires { (128 ≤ length places.old)
        × (at < stop)
        × (o.frames ≤ frames)
        × (length spans.now ≡ 256)
        × Stood z file.now spans.now at stop
        × Each (WholeBy z file.now) places.old
        × (frames ≤ 1048576) }
    ensures { Batched z frames file.now spans.now at stop o places.new result }
{
    let s = scan_frame(file, spans, z, frames, at, stop, o, 0, places);
    let first = s.opened.frames;
    let count = s.count;
    let mut next = s.next;
    let mut last = s.opened;
    let mut m: usize = 1;
    while m < 8 {
        if stop <= next {
            return Batch {
                next: next,
                count: count,
                many: m,
                first: first,
                opened: last,
            };
        }
        let x = scan_frame(file, spans, z, frames, next, stop, last, m, places);
        if x.count != count {
            return Batch {
                next: next,
                count: count,
                many: m,
                first: first,
                opened: last,
            };
        }
        if x.opened.frames != first + m {
            return Batch {
                next: next,
                count: count,
                many: m,
                first: first,
                opened: last,
            };
        }
        next = x.next;
        last = x.opened;
        m += 1;
    }
    Batch {
        next: next,
        count: count,
        many: m,
        first: first,
        opened: last,
    }
}
