// Whether an event may come where a frame stands.
ghost use Rattle.std.specs.Prelude.{◌≡◌};
ghost use Rattle.layout.specs.declared.columns.Family.TheVariants.{Pre, Post, FrameEnd};
ghost use Rattle.grammar.specs.WellFormed.{ascending};
ghost use Rattle.grammar.specs.Machine.{orderly};
ghost use Rattle.read_order.specs.Inner.{said_of};
ghost use Rattle.newer_order.specs.Inner.{newest, state_of, Fair};

use crate::stage::{Stage, is_closed, is_inside};
use layout::columns::Family;
use read_order::stage::{Word, is_player, slot};

// A Pre: of the frame, of a player behind all that came. The ports ascend, so the least slot says it.
fn pre_may(m: Stage, w: Word) -> bool
    requires { Fair m }
    ensures { result ≡ orderly newest ascending (state_of m) Pre (said_of w) }
{
    is_inside(m, 2, w) & is_player(w) & (m.least <= slot(w))
}

// A Post: its player is the next whose Post is to come.
fn post_may(m: Stage, w: Word) -> bool
    ensures { result ≡ orderly newest ascending (state_of m) Post (said_of w) }
{
    is_inside(m, 7, w) & is_player(w) & (0 < m.due) & (m.queue % 16 == slot(w))
}

// A FrameEnd: no Post is to come.
fn end_may(m: Stage, w: Word) -> bool
    ensures { result ≡ orderly newest ascending (state_of m) FrameEnd (said_of w) }
{
    is_inside(m, 7, w) & (m.due == 0)
}

// Whether an event of this family may come.
pub fn may(m: Stage, family: Family, w: Word) -> bool
    requires { Fair m }
    ensures { result ≡ orderly newest ascending (state_of m) family (said_of w) }
{
    match family {
        Family::FrameStart => is_closed(m),
        Family::Pre => pre_may(m, w),
        Family::FodPlatform => is_inside(m, 3, w),
        Family::DreamlandWhispy => is_inside(m, 4, w),
        Family::StadiumTransformation => is_inside(m, 5, w),
        Family::Item => is_inside(m, 6, w),
        Family::Post => post_may(m, w),
        Family::FrameEnd => end_may(m, w),
    }
}
