// The public calls: the events of frames go to a place of the output, or a refusal touches nothing.
ghost use Rattle.std.specs.Prelude.{◌≡◌, ◌+◌};
ghost use Rattle.game.specs.Held.{lent_in};
ghost use Rattle.append.specs.Run.{outside_frames, RunOutcome};

use super::place::put_run;
use format::refusal::Refusal;
use frames::judge::judge;
use game::frames::Frames;
use game::stores::Lent;

// Whether a range is reversed, or ends beyond the frames.
fn is_outside(f: Frames, a: usize, b: usize) -> bool
    ensures { result ≡ outside_frames f a b }
{
    (b < a) | (f.counts.frames < b)
}

// The frames from a on and before b. The place after their last byte is answered; what stands before the place and after that stays.
pub fn write_frames(
    out: &mut [u8],
    place: usize,
    f: Frames,
    lent: &Lent<'_>,
    a: usize,
    b: usize,
) -> Result<usize, Refusal>
    ensures { RunOutcome f (lent_in lent.now) a b place out.old result out.new }
{
    judge(f, lent, 0, 0)?;
    if is_outside(f, a, b) {
        return Err(Refusal::OutOfRange);
    }
    put_run(out, place, f, lent, a, b)
}

// Frame i alone.
pub fn write_frame(
    out: &mut [u8],
    place: usize,
    f: Frames,
    lent: &Lent<'_>,
    i: usize,
) -> Result<usize, Refusal>
    ensures { RunOutcome f (lent_in lent.now) i (i + 1) place out.old result out.new }
{
    judge(f, lent, 0, 0)?;
    if f.counts.frames <= i {
        return Err(Refusal::OutOfRange);
    }
    put_run(out, place, f, lent, i, i + 1)
}
