// Eight frames that are like the one before them, at once: only their ids count.
ghost use Rattle.std.specs.Prelude.{◌≡◌, ◌+◌, ◌-◌, ◌*◌, ◌≤◌, ◌<◌, length};
ghost use Rattle.read_scan.specs.Alike.{run_id, run_tally, on_id, begin_of};
ghost use Rattle.read_scan.specs.Counts.{Under};

use crate::tally::{Tally, begun, begun_next};
use layout::columns::Family;
use read_order::stage::Stage;

// Where a frame stands after them, what was counted, and how many bytes they have.
#[derive(Clone, Copy)]
pub struct Leap {
    pub stage: Stage,
    pub tally: Tally,
    pub by: usize,
}

// After eight frames from a place on, each as long as the one from `last` up to it.
pub fn leapt(file: &[u8], m: Stage, tally: Tally, last: usize, at: usize) -> Leap
    requires { (last < at) × (at + (8 * (at - last) + 7) ≤ length file.now) × Under tally at }
    ensures { (result.stage ≡ on_id m (run_id file.now at (at - last) m.id 8))
        × (result.tally ≡ run_tally file.now at (at - last) m.id tally 8)
        × (result.by ≡ 8 * (at - last)) }
{
    let step = at - last;
    let first = wire::get_be(file, at + 1, 4);
    let mut y = begun(tally, m.id, first);
    let mut old = first;
    let mut p = at + step;
    for _ in 0..7usize {
        let id = wire::get_be(file, p + 1, 4);
        y = begun_next(y, old, id);
        old = id;
        p += step;
    }
    Leap {
        stage: Stage { id: old, ..m },
        tally: y,
        by: 8 * step,
    }
}

// Where the events begin that may come again: at this event, but where it is a player's or the frame's end.
pub fn begins(family: Family, last: usize, at: usize) -> usize
    ensures { result ≡ begin_of family last at }
{
    match family {
        Family::Pre | Family::Post | Family::FrameEnd => last,
        Family::FrameStart
        | Family::Item
        | Family::FodPlatform
        | Family::DreamlandWhispy
        | Family::StadiumTransformation => at,
    }
}
