// Whether an event may come where a frame stands.
ghost use Rattle.std.specs.Prelude.{◌≡◌, ◌+◌, ◌*◌, ◌≤◌, length};
ghost use Rattle.layout.specs.declared.columns.Family.TheVariants.{Pre};
ghost use Rattle.grammar.specs.Machine.{orderly};
ghost use Rattle.read_order.specs.Inner.{order_of, said_of, state_in, stands, next_at, end_at};

use crate::due::{PortOrder, may_come, slot_at};
use crate::stage::{Stage, Word, is_closed, is_inside, is_player, slot};
use format::version::Version;
use layout::columns::Family;

// Whether a Pre may stand here: in its frame, or as the first of one before 2.2.
fn may_stand(v: Version, m: Stage, w: Word) -> bool
    ensures { result ≡ stands v m w }
{
    if is_inside(m, 2, w) {
        return true;
    }
    if Family::FrameStart.exists(v) {
        return false;
    }
    is_closed(v, m)
}

// Whether a Pre may come: it may stand here, and its player may come after those that are due.
fn pre_may(file: &[u8], v: Version, order: PortOrder, span: usize, m: Stage, w: Word) -> bool
    requires { (7 ≤ span) × (m.pre + m.due * span ≤ length file.now) }
    ensures { result ≡ orderly v (order_of order) (state_in file.now span m) Pre (said_of w) }
{
    if may_stand(v, m, w) {
        if is_player(w) {
            return may_come(file, order, span, m.pre, m.due, slot(w));
        }
    }
    false
}

// Whether a Post may come: the player is the next whose Post is to come.
fn post_may(file: &[u8], span: usize, m: Stage, w: Word) -> bool
    requires { (7 ≤ span) × (m.pre + m.due * span ≤ length file.now) }
    ensures { result ≡ next_at file.now span m w }
{
    if is_inside(m, 7, w) & is_player(w) & (0 < m.due) {
        return slot_at(file, m.pre) == slot(w);
    }
    false
}

// Whether a FrameEnd may come: no Post is to come.
fn end_may(m: Stage, w: Word) -> bool
    ensures { result ≡ end_at m w }
{
    if is_inside(m, 7, w) {
        return m.due == 0;
    }
    false
}

// Whether an event of this family may come.
pub fn may(
    file: &[u8],
    v: Version,
    order: PortOrder,
    span: usize,
    m: Stage,
    family: Family,
    w: Word,
) -> bool
    requires { (7 ≤ span) × (m.pre + m.due * span ≤ length file.now) }
    ensures { result ≡ orderly v (order_of order) (state_in file.now span m) family (said_of w) }
{
    match family {
        Family::FrameStart => is_closed(v, m),
        Family::Pre => pre_may(file, v, order, span, m, w),
        Family::FodPlatform => is_inside(m, 3, w),
        Family::DreamlandWhispy => is_inside(m, 4, w),
        Family::StadiumTransformation => is_inside(m, 5, w),
        Family::Item => is_inside(m, 6, w),
        Family::Post => post_may(file, span, m, w),
        Family::FrameEnd => end_may(m, w),
    }
}
