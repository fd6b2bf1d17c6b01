// The players' events of a newer recorder's frames into lent stores.
ghost use Rattle.std.specs.Prelude.{◌≡◌, true, List, ◌≤◌, ◌<◌, length};
ghost use Rattle.format.specs.File.{Ev};
ghost use Rattle.grammar.specs.WellFormed.{Each};
ghost use Rattle.newer_places.specs.Inner.{Stood};
ghost use Rattle.newer_places.specs.Known.{KnownIn, SomeKnown};
ghost use Rattle.read_event.specs.Inner.{plan_of, spans_of, Numbered};
ghost use Rattle.read_event.specs.Parts.{WholeBy, seats, seating, SeatSpans, SeatRooms, seating_of, seats_run};

use game::frames::Frames;
use layout::columns::Family;
use layout::listing::widths;
use newer_places::scan::{find_frames, next_seat};
use read_eights::eights::put_batch;
use read_event::numbers::Numbers;
use read_event::seen::Open;
use read_event::spans::Spans;

// All known events between two places, by a table of places: from one on that is a player's or begins a frame.
fn pass_by(
    file: &[u8],
    spans: &[u32],
    first: usize,
    stop: usize,
    z: Spans,
    pre: &[u8],
    post: &[u8],
    numbers: &[u32],
    frames: usize,
    places: &mut [usize],
    pres: &mut [u32],
    posts: &mut [u32],
    presence: &mut [u8],
)
    requires { SeatSpans z (seating pre.now post.now numbers.now frames)
        × (length spans.now ≡ 256)
        × Stood z file.now spans.now first stop
        × SeatRooms (seating pre.now post.now numbers.now frames) (seats pres.old posts.old presence.old)
        × (128 ≤ length places.old)
        × Each (WholeBy z file.now) places.old }
    ensures { (es : List Ev) → KnownIn z file.now spans.now first stop es
        → seats pres.new posts.new presence.new
        ≡ seats_run true (seating pre.now post.now numbers.now frames) es
        (seats pres.old posts.old presence.old) }
{
    let mut o = Open { frames: 0, id: 0 };
    let mut at = first;
    while at < stop {
        let k = find_frames(file, spans, z, frames, at, stop, o, places);
        put_batch(
            file, places, k.count, k.many, z, pre, post, numbers, frames, k.first, pres, posts,
            presence,
        );
        at = k.next;
        o = k.opened;
    }
}

// The same from any place on, with a table of its own.
fn pass(
    file: &[u8],
    spans: &[u32],
    first: usize,
    stop: usize,
    z: Spans,
    pre: &[u8],
    post: &[u8],
    numbers: &[u32],
    frames: usize,
    pres: &mut [u32],
    posts: &mut [u32],
    presence: &mut [u8],
)
    requires { SeatSpans z (seating pre.now post.now numbers.now frames)
        × (length spans.now ≡ 256)
        × SomeKnown z file.now spans.now first stop
        × SeatRooms (seating pre.now post.now numbers.now frames) (seats pres.old posts.old presence.old) }
    ensures { (es : List Ev) → KnownIn z file.now spans.now first stop es
        → seats pres.new posts.new presence.new
        ≡ seats_run true (seating pre.now post.now numbers.now frames) es
        (seats pres.old posts.old presence.old) }
{
    let at = next_seat(file, spans, first, stop);
    if at < stop {
        let mut places = [at; 128];
        pass_by(
            file,
            spans,
            at,
            stop,
            z,
            pre,
            post,
            numbers,
            frames,
            &mut places,
            pres,
            posts,
            presence,
        );
    }
}

// The known events that stand from `first` to `stop` into the players' stores.
pub fn fill_players(
    file: &[u8],
    spans: &[u32],
    f: Frames,
    first: usize,
    stop: usize,
    z: Spans,
    slots: Numbers,
    pres: &mut [u32],
    posts: &mut [u32],
    presence: &mut [u8],
)
    requires { (z ≡ spans_of (plan_of f))
        × Numbered f slots.count slots.of
        × (length spans.now ≡ 256)
        × SomeKnown z file.now spans.now first stop
        × SeatRooms (seating_of (plan_of f)) (seats pres.old posts.old presence.old) }
    ensures { (es : List Ev) → KnownIn z file.now spans.now first stop es
        → seats pres.new posts.new presence.new
        ≡ seats_run true (seating_of (plan_of f)) es
        (seats pres.old posts.old presence.old) }
{
    let pre = widths(Family::Pre, f.version);
    let post = widths(Family::Post, f.version);
    let pre_n = pre.count;
    let pre_w = pre.widths;
    let post_n = post.count;
    let post_w = post.widths;
    let count = slots.count;
    let numbers = slots.of;
    pass(
        file,
        spans,
        first,
        stop,
        z,
        &pre_w[..pre_n],
        &post_w[..post_n],
        &numbers[..count],
        f.counts.frames,
        pres,
        posts,
        presence,
    );
}
