// Players' events that begin no frame: they bring the stores that are no player's nothing.
ghost use Rattle.std.specs.Prelude.{◌≡◌, true, false, ℕ, ◌+◌, ◌≤◌, ◌<◌, length, get_or};
ghost use Rattle.read_event.specs.Inner.{told_at};
ghost use Rattle.read_event.specs.Parts.{SomeBy, first_by};
ghost use Rattle.read_turn.specs.Inner.{Nothing};

use format::event::{FRAME_POST, FRAME_PRE};
use read_event::seen::Open;
use read_event::spans::{Spans, player_span};

// Whether the event at a place is a player's and begins no frame: any Post, and a Pre where the version has a FrameStart or the frame's id goes on.
fn is_quiet(file: &[u8], at: usize, start: bool, o: Open) -> bool
    requires { at + 5 ≤ length file.now }
    ensures { result ≡ true → (get_or file.now at 0 < 0x3A) × ((frames : ℕ) → first_by start frames o (told_at file.now at) ≡ false) }
{
    let code = file[at];
    if code == FRAME_POST {
        return true;
    }
    if code != FRAME_PRE {
        return false;
    }
    if start {
        return true;
    }
    if o.frames == 0 {
        return false;
    }
    wire::get_be(file, at + 1, 4) == o.id
}

// The place behind them, from a place on.
pub fn after_quiet(file: &[u8], z: Spans, start: bool, o: Open, at: usize, stop: usize) -> usize
    requires { SomeBy z file.now at stop }
    ensures { Nothing z start o file.now at stop result }
{
    let mut e = at;
    // Each event's own code says how far the next one is: no range or step counts them.
    while e < stop {
        if is_quiet(file, e, start, o) {
            e += player_span(z, file[e]);
        } else {
            return e;
        }
    }
    e
}
