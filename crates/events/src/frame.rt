// Frames: all records of a frame in their order, and frame after frame.
ghost use Rattle.std.specs.Prelude.{◌≡◌, ◌-◌, ◌≤◌, ◌<◌, length};
ghost use Rattle.wire.specs.Wire.{ranged, Room, Wrote};
ghost use Rattle.format.specs.File.{events_bytes};
ghost use Rattle.players.specs.Inner.{Slotted};
ghost use Rattle.game.specs.Held.{lent_in};
ghost use Rattle.events.specs.Events.{frame_events};
ghost use Rattle.events.specs.Inner.{Framed, frame_bytes, Supplied};

use super::eights::put_eight;
use super::middle::put_between;
use super::rows::{put_one, put_players};
use super::shapes::{Shapes, shapes_of};
use game::frames::Frames;
use game::stores::Lent;
use places::team::{is_team, is_whole};
use players::slots::Slots;

// Frame i: its start; the Pre of its players; its stage's rows, then its items; the Post of its players; its end.
fn put_frame(
    out: &mut [u8],
    at: usize,
    i: usize,
    shapes: Shapes,
    s: Slots,
    lent: &Lent<'_>,
) -> usize
    requires { let all = lent_in lent.now in
        Supplied shapes s all (length lent.now.cells.ids.now)
        × (i < length lent.now.cells.ids.now)
        × Room out.old at (frame_bytes shapes s all i) }
    ensures { let all = lent_in lent.now in
        Wrote out.old out.new at result (frame_bytes shapes s all i) }
{
    let id = lent.cells.ids[i];
    let n = lent.cells.ids.len();
    let mut p = put_one(out, at, shapes.start, lent.cells.starts, id, i);
    p = put_players(out, p, shapes.pre, s, lent.cells.pres, lent.presence, id, i);
    p = put_between(out, p, shapes, lent, n, id, i);
    p = put_players(
        out,
        p,
        shapes.post,
        s,
        lent.cells.posts,
        lent.presence,
        id,
        i,
    );
    put_one(out, p, shapes.end, lent.cells.ends, id, i)
}

// The frames from a on and before b, by the shapes of their families: whoever writes several runs of one input makes the shapes once. Eight frames that have the same
// players go out together, others one by one.
pub fn put_run(
    out: &mut [u8],
    at: usize,
    shapes: Shapes,
    s: Slots,
    a: usize,
    b: usize,
    lent: &Lent<'_>,
) -> usize
    requires { let all = lent_in lent.now in
        Supplied shapes s all (length lent.now.cells.ids.now)
        × (a ≤ b)
        × (b ≤ length lent.now.cells.ids.now)
        × Room out.old at (ranged (frame_bytes shapes s all) a (b - a)) }
    ensures { let all = lent_in lent.now in
        Wrote out.old out.new at result (ranged (frame_bytes shapes s all) a (b - a)) }
{
    let whole = is_whole(s);
    let mut p = at;
    let mut i = a;
    // The index goes on by eight or by one, as no range does.
    while i < b {
        if is_team(whole, s, lent.presence, i, b) {
            p = put_eight(out, p, i, shapes, s, lent);
            i += 8;
        } else {
            p = put_frame(out, p, i, shapes, s, lent);
            i += 1;
        }
    }
    p
}

// The events of the frames from a on and before b.
pub fn put_frames(
    out: &mut [u8],
    at: usize,
    f: Frames,
    s: Slots,
    a: usize,
    b: usize,
    lent: &Lent<'_>,
) -> usize
    requires { let all = lent_in lent.now in
        Framed f all
        × Slotted f s
        × (a ≤ b)
        × (b ≤ f.counts.frames)
        × Room out.old at (events_bytes (ranged (frame_events f all) a (b - a))) }
    ensures { let all = lent_in lent.now in
        Wrote out.old out.new at result (events_bytes (ranged (frame_events f all) a (b - a))) }
{
    let shapes = shapes_of(f);
    put_run(out, at, shapes, s, a, b, lent)
}
