// Where a frame stands after an event that may come.
ghost use Rattle.std.specs.Prelude.{◌≡◌, true};
ghost use Rattle.layout.specs.declared.columns.Family.TheVariants.{Pre, Post};
ghost use Rattle.grammar.specs.WellFormed.{ascending};
ghost use Rattle.grammar.specs.Machine.{orderly};
ghost use Rattle.read_order.specs.Inner.{said_of};
ghost use Rattle.newer_order.specs.Inner.{newest, state_of, Fair, After, row_of};

use crate::stage::Stage;
use layout::columns::Family;
use read_order::stage::{Word, slot};

// After a Pre: its slot is the highest digit.
fn with_pre(m: Stage, w: Word) -> Stage
    requires { Fair m × (orderly newest ascending (state_of m) Pre (said_of w) ≡ true) }
    ensures { After m w Pre result }
{
    let k = slot(w);
    Stage {
        rank: 2,
        id: w.id,
        queue: m.queue + (k << (4 * m.due)),
        due: m.due + 1,
        least: k + 1,
    }
}

// After a Post: the lowest digit is done.
fn with_post(m: Stage, w: Word) -> Stage
    requires { Fair m × (orderly newest ascending (state_of m) Post (said_of w) ≡ true) }
    ensures { After m w Post result }
{
    Stage {
        rank: 7,
        id: w.id,
        queue: m.queue / 16,
        due: m.due - 1,
        least: m.least,
    }
}

// After a FrameStart, where nobody was due.
fn with_start(w: Word) -> Stage
    ensures { result ≡ row_of 1 w 0 0 0 }
{
    Stage {
        rank: 1,
        id: w.id,
        queue: 0,
        due: 0,
        least: 0,
    }
}

// After an event of nobody: those whose Post is to come stay.
fn with_row(m: Stage, rank: u8, w: Word) -> Stage
    ensures { result ≡ row_of rank w m.queue m.due m.least }
{
    Stage {
        rank: rank,
        id: w.id,
        queue: m.queue,
        due: m.due,
        least: m.least,
    }
}

// The frame after an event that may come.
pub fn moved(m: Stage, family: Family, w: Word) -> Stage
    requires { Fair m × (orderly newest ascending (state_of m) family (said_of w) ≡ true) }
    ensures { After m w family result }
{
    match family {
        Family::Pre => with_pre(m, w),
        Family::Post => with_post(m, w),
        Family::FrameStart => with_start(w),
        Family::FodPlatform => with_row(m, 3, w),
        Family::DreamlandWhispy => with_row(m, 4, w),
        Family::StadiumTransformation => with_row(m, 5, w),
        Family::Item => with_row(m, 6, w),
        Family::FrameEnd => with_row(m, 8, w),
    }
}
