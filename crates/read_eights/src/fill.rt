// The players' events of a file's frames into lent stores.
ghost use Rattle.std.specs.Prelude.{◌≡◌, List, ◌≤◌, ◌<◌, length};
ghost use Rattle.format.specs.File.{Ev};
ghost use Rattle.grammar.specs.WellFormed.{Each};
ghost use Rattle.read_event.specs.Inner.{plan_of, spans_of, Numbered};
ghost use Rattle.read_event.specs.Parts.{SpelledBy, SomeBy, WholeBy, seats, seating, SeatSpans, SeatRooms, seating_of, seats_run};

use super::eights::put_batch;
use game::frames::Frames;
use layout::columns::Family;
use layout::listing::widths;
use read_event::numbers::Numbers;
use read_event::seen::Open;
use read_event::spans::Spans;
use read_places::alike::find_next;

// How far apart eight frames that have so many bytes are, if all are alike; else as far as those before them.
fn step_of(bytes: usize, step: usize) -> usize {
    if bytes % 8 == 0 {
        return bytes / 8;
    }
    step
}

// All events between two places, by a table of places.
fn pass_by(
    file: &[u8],
    first: usize,
    stop: usize,
    z: Spans,
    start: bool,
    pre: &[u8],
    post: &[u8],
    numbers: &[u32],
    frames: usize,
    places: &mut [usize],
    pres: &mut [u32],
    posts: &mut [u32],
    presence: &mut [u8],
)
    requires { SeatSpans z (seating pre.now post.now numbers.now frames)
        × SomeBy z file.now first stop
        × SeatRooms (seating pre.now post.now numbers.now frames) (seats pres.old posts.old presence.old)
        × (128 ≤ length places.old)
        × Each (WholeBy z file.now) places.old }
    ensures { (es : List Ev) → SpelledBy z file.now first stop es
        → seats pres.new posts.new presence.new
        ≡ seats_run start (seating pre.now post.now numbers.now frames) es
        (seats pres.old posts.old presence.old) }
{
    let mut o = Open { frames: 0, id: 0 };
    let mut at = first;
    let mut step: usize = 0;
    while at < stop {
        let k = find_next(
            file, z, start, frames, at, stop, o.frames, o.id, step, places,
        );
        put_batch(
            file, places, k.count, k.many, z, pre, post, numbers, frames, k.first, pres, posts,
            presence,
        );
        step = step_of(k.next - at, step);
        at = k.next;
        o = k.opened;
    }
}

// The same with a table of its own.
fn pass(
    file: &[u8],
    first: usize,
    stop: usize,
    z: Spans,
    start: bool,
    pre: &[u8],
    post: &[u8],
    numbers: &[u32],
    frames: usize,
    pres: &mut [u32],
    posts: &mut [u32],
    presence: &mut [u8],
)
    requires { SeatSpans z (seating pre.now post.now numbers.now frames)
        × SomeBy z file.now first stop
        × SeatRooms (seating pre.now post.now numbers.now frames) (seats pres.old posts.old presence.old) }
    ensures { (es : List Ev) → SpelledBy z file.now first stop es
        → seats pres.new posts.new presence.new
        ≡ seats_run start (seating pre.now post.now numbers.now frames) es
        (seats pres.old posts.old presence.old) }
{
    if first < stop {
        let mut places = [first; 128];
        pass_by(
            file,
            first,
            stop,
            z,
            start,
            pre,
            post,
            numbers,
            frames,
            &mut places,
            pres,
            posts,
            presence,
        );
    }
}

// The events of the frames of an input, which stand from `first` to `stop`, into the players' stores.
pub fn fill_players(
    file: &[u8],
    f: Frames,
    first: usize,
    stop: usize,
    z: Spans,
    slots: Numbers,
    pres: &mut [u32],
    posts: &mut [u32],
    presence: &mut [u8],
)
    requires { (z ≡ spans_of (plan_of f))
        × Numbered f slots.count slots.of
        × SomeBy z file.now first stop
        × SeatRooms (seating_of (plan_of f)) (seats pres.old posts.old presence.old) }
    ensures { (es : List Ev) → SpelledBy z file.now first stop es
        → seats pres.new posts.new presence.new
        ≡ seats_run (plan_of f).has_start (seating_of (plan_of f)) es
        (seats pres.old posts.old presence.old) }
{
    let v = f.version;
    let pre = widths(Family::Pre, v);
    let post = widths(Family::Post, v);
    let pre_n = pre.count;
    let pre_w = pre.widths;
    let post_n = post.count;
    let post_w = post.widths;
    let count = slots.count;
    let numbers = slots.of;
    pass(
        file,
        first,
        stop,
        z,
        Family::FrameStart.exists(v),
        &pre_w[..pre_n],
        &post_w[..post_n],
        &numbers[..count],
        f.counts.frames,
        pres,
        posts,
        presence,
    );
}
