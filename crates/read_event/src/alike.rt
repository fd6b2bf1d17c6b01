// Frames a step apart whose events have the same codes.
ghost use Rattle.std.specs.Prelude.{◌≡◌, true, ◌+◌, ◌*◌, ◌≤◌, ◌<◌, length};
ghost use Rattle.read_event.specs.Parts.{WholeBy};
ghost use Rattle.read_event.specs.Alike.{Same, Ahead, GoesOn, steps_put};

use super::spans::{Spans, span_of};
use format::event::FRAME_START;

// Eight bytes a step apart are the same.
pub fn is_repeated(file: &[u8], at: usize, step: usize) -> bool
    requires { at + 7 * step < length file.now }
    ensures { result ≡ true → Same file.now step at }
{
    let first = file[at];
    let mut p = at;
    for _ in 0..7usize {
        p += step;
        if file[p] != first {
            return false;
        }
    }
    true
}

// Whether eight frames a step apart begin from a place on.
pub fn is_ahead(
    file: &[u8],
    z: Spans,
    start: bool,
    at: usize,
    stop: usize,
    step: usize,
    first: usize,
    frames: usize,
) -> bool
    requires { (at < stop) × (first ≤ 1048577) }
    ensures { result ≡ true → Ahead z start file.now at stop step first frames }
{
    if !start {
        return false;
    }
    if step < z.start {
        return false;
    }
    if file.len() < stop {
        return false;
    }
    if (stop - at) / 8 < step {
        return false;
    }
    if frames < first + 7 {
        return false;
    }
    if file[at] != FRAME_START {
        return false;
    }
    is_repeated(file, at, step)
}

// How many bytes the event at a place has, where it begins no frame and seven events a step apart have its code; else 0.
pub fn goes_on(file: &[u8], z: Spans, e: usize, next: usize, step: usize) -> usize
    requires { WholeBy z file.now e × (e < next) × (next + 7 * step ≤ length file.now) }
    ensures { 0 < result → GoesOn z file.now e next step result }
{
    let code = file[e];
    if code == FRAME_START {
        return 0;
    }
    let span = span_of(z, code);
    if next - e < span {
        return 0;
    }
    if is_repeated(file, e, step) {
        return span;
    }
    0
}

// Eight places a step apart into the table from i on.
pub fn put_steps(file: &[u8], places: &mut [usize], i: usize, at: usize, step: usize)
    requires { (i + 8 ≤ length places.old) × (at + 7 * step < length file.now) }
    ensures { places.new ≡ steps_put i at step 8 places.old }
{
    let mut p = at;
    for t in 0..8 {
        places[i + t] = p;
        p += step;
    }
}
