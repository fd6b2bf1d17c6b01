// Eight frames a step apart whose events have the same codes: the places of the first one's events give those of the others.
ghost use Rattle.std.specs.Prelude.{◌≡◌, true, cond, ◌+◌, ◌-◌, ◌*◌, ◌≤◌, ◌<◌, length, get_or};
ghost use Rattle.grammar.specs.WellFormed.{Each};
ghost use Rattle.read_event.specs.Alike.{steps_put};
ghost use Rattle.read_event.specs.Parts.{SomeBy, WholeBy};
ghost use Rattle.read_places.specs.Inner.{is_players, open_of, Followed, Batched};

use super::scan::{Batch, find_frames, is_players};
use read_event::alike::{goes_on, is_ahead, put_steps};
use read_event::seen::Open;
use read_event::spans::Spans;

// A player's event's places into the table. Answers how many there are then.
fn note_steps(file: &[u8], places: &mut [usize], e: usize, step: usize, j: usize) -> usize
    requires { (j < 16) × (128 ≤ length places.old) × (e + 7 * step < length file.now) }
    ensures { (result ≡ cond (is_players (get_or file.now e 0)) (j + 1) j)
        × (places.new ≡ cond (is_players (get_or file.now e 0)) (steps_put (j * 8) e step 8 places.old) places.old) }
{
    if is_players(file[e]) {
        put_steps(file, places, j * 8, e, step);
        return j + 1;
    }
    j
}

// The events of eight frames a step apart into the table. Answers how many players' events each has, and one; 0 where they are not alike.
fn follow(
    file: &[u8],
    z: Spans,
    start: bool,
    frames: usize,
    at: usize,
    stop: usize,
    was: usize,
    step: usize,
    places: &mut [usize],
) -> usize
    requires { (128 ≤ length places.old)
        × (at < stop)
        × (was ≤ frames)
        × SomeBy z file.now at stop
        × Each (WholeBy z file.now) places.old
        × (frames ≤ 1048576) }
    ensures { Each (WholeBy z file.now) places.new
        × (0 < result → Followed z start frames file.now at stop step was (result - 1) places.new) }
{
    if is_ahead(file, z, start, at, stop, step, was + 1, frames) {
        let next = at + step;
        let mut e = at + z.start;
        let mut j: usize = 0;
        // Each event's own code says how far the next one is: no range or step counts them.
        while e < next {
            let span = goes_on(file, z, e, next, step);
            if span == 0 {
                return 0;
            }
            if 16 <= j {
                return 0;
            }
            j = note_steps(file, places, e, step, j);
            e += span;
        }
        return j + 1;
    }
    0
}

// The frames at a place: eight at once where they are a step apart and alike, else as many as go together.
pub fn find_next(
    file: &[u8],
    z: Spans,
    start: bool,
    frames: usize,
    at: usize,
    stop: usize,
    was: usize,
    id: u32,
    step: usize,
    places: &mut [usize],
) -> Batch
    requires { (128 ≤ length places.old)
        × (at < stop)
        × (was ≤ frames)
        × SomeBy z file.now at stop
        × Each (WholeBy z file.now) places.old
        × (frames ≤ 1048576) }
    ensures { Batched z start frames file.now at stop (open_of was id) places.new result }
{
    let k = follow(file, z, start, frames, at, stop, was, step, places);
    if 0 < k {
        let last = at + 7 * step;
        return Batch {
            next: last + step,
            count: k - 1,
            many: 8,
            first: was + 1,
            opened: Open {
                frames: was + 8,
                id: wire::get_be(file, last + 1, 4),
            },
        };
    }
    find_frames(file, z, start, frames, at, stop, was, id, places)
}
