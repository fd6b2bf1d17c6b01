// A run at its place, once the game and the range are judged.
ghost use Rattle.std.specs.Prelude.{◌≡◌, false, ◌+◌, ltb};
ghost use Rattle.format.specs.Refusal.{lowest};
ghost use Rattle.game.specs.Held.{lent_in};
ghost use Rattle.frames.specs.Judge.{refusals};
ghost use Rattle.append.specs.Run.{outside_frames, RunOutcome};

use super::length::run_len;
use events::shapes::shapes_of;
use format::refusal::Refusal;
use game::frames::Frames;
use game::stores::Lent;
use players::slots::slots_of;

// Whether len bytes from a place on go beyond an output of `room` bytes; the place may be beyond it itself.
pub fn is_short(room: usize, place: usize, len: usize) -> bool
    ensures { result ≡ ltb room (place + len) }
{
    if room < place {
        return true;
    }
    room - place < len
}

// Refused with 12 or written.
pub fn put_run(
    out: &mut [u8],
    place: usize,
    f: Frames,
    lent: &Lent<'_>,
    a: usize,
    b: usize,
) -> Result<usize, Refusal>
    requires { (lowest (refusals f (lent_in lent.now) 0 0) ≡ 0)
        × (outside_frames f a b ≡ false) }
    ensures { RunOutcome f (lent_in lent.now) a b place out.old result out.new }
{
    let s = slots_of(f);
    let shapes = shapes_of(f);
    let len = run_len(f, shapes, s, &lent.offsets, lent.presence, a, b);
    if is_short(out.len(), place, len) {
        return Err(Refusal::ShortOutput);
    }
    let end = events::frame::put_run(out, place, shapes, s, a, b, lent);
    Ok(end)
}
