// Why an event of a frame cannot come.
ghost use Rattle.std.specs.Prelude.{◌≡◌, ◌+◌, ◌*◌, ◌≤◌, length, get_or};
ghost use Rattle.grammar.specs.Machine.{said_by};
ghost use Rattle.read_order.specs.Inner.{said_of, state_in, stands};
ghost use Rattle.fault_reason.specs.Reason.{place_reason, who_reason, pre_reason, post_reason, order_reason, row_reason};
ghost use Rattle.fault_reason.specs.Inner.{ev, open_at, last_at};

use crate::due::is_due;
use format::version::Version;
use layout::columns::Family;
use layout::payloads::record_size;
use read_order::due::{PortOrder, may_come};
use read_order::stage::{Stage, Word, is_closed, is_inside, is_player, slot};

// A frame is not over.
pub fn open_reason(m: Stage) -> u8
    ensures { result ≡ open_at m }
{
    if m.due == 0 {
        return 1;
    }
    5
}

// An event is not of the frame, or its rank is under the last one's.
fn place_reason(m: Stage, rank: u8) -> u8
    ensures { result ≡ place_reason m.rank rank }
{
    if m.rank <= rank {
        return 3;
    }
    1
}

// A player is none.
fn who_reason(w: Word) -> u8
    ensures { result ≡ who_reason (said_of w) }
{
    if w.port <= 3 {
        return 8;
    }
    7
}

// Whether a Pre may stand here: in its frame, or as the first of one before 2.2.
fn pre_stands(v: Version, m: Stage, w: Word) -> bool
    ensures { result ≡ stands v m w }
{
    if is_inside(m, 2, w) {
        return true;
    }
    if Family::FrameStart.exists(v) {
        return false;
    }
    is_closed(v, m)
}

// A Pre.
fn pre_reason(file: &[u8], v: Version, span: usize, m: Stage, w: Word) -> u8
    requires { (7 ≤ span) × (m.pre + m.due * span ≤ length file.now) }
    ensures { result ≡ pre_reason v (state_in file.now span m) (said_of w) }
{
    if pre_stands(v, m, w) {
        if is_player(w) {
            let k = slot(w);
            if is_due(file, span, m.pre, m.due, k) {
                return 6;
            }
            if may_come(file, PortOrder::Ascending, span, m.pre, m.due, k) {
                return 20;
            }
            return 4;
        }
        return who_reason(w);
    }
    place_reason(m, 2)
}

// A Post.
fn post_reason(file: &[u8], span: usize, m: Stage, w: Word) -> u8
    requires { (7 ≤ span) × (m.pre + m.due * span ≤ length file.now) }
    ensures { result ≡ post_reason (state_in file.now span m) (said_of w) }
{
    if is_inside(m, 7, w) {
        if is_player(w) {
            if is_due(file, span, m.pre, m.due, slot(w)) {
                return 4;
            }
            return 21;
        }
        return who_reason(w);
    }
    place_reason(m, 7)
}

// A FrameEnd.
fn last_reason(m: Stage, w: Word) -> u8
    ensures { result ≡ last_at m w }
{
    if is_inside(m, 7, w) {
        return 5;
    }
    place_reason(m, 7)
}

// An event of a family that the version has, of its size.
fn order_reason(file: &[u8], v: Version, span: usize, m: Stage, family: Family, w: Word) -> u8
    requires { (7 ≤ span) × (m.pre + m.due * span ≤ length file.now) }
    ensures { result ≡ order_reason v (state_in file.now span m) family (said_of w) }
{
    match family {
        Family::FrameStart => open_reason(m),
        Family::Pre => pre_reason(file, v, span, m, w),
        Family::FodPlatform => place_reason(m, 3),
        Family::DreamlandWhispy => place_reason(m, 4),
        Family::StadiumTransformation => place_reason(m, 5),
        Family::Item => place_reason(m, 6),
        Family::Post => post_reason(file, span, m, w),
        Family::FrameEnd => last_reason(m, w),
    }
}

// The byte at a place, or 0 where there is none.
pub fn byte_at(p: &[u8], i: usize) -> u8
    ensures { result ≡ get_or p.now i 0 }
{
    if i < p.len() {
        return p[i];
    }
    0
}

// What a payload says.
fn word_in(p: &[u8], code: u8) -> Word
    requires { 4 ≤ length p.now }
    ensures { said_of result ≡ said_by (ev code p.now) }
{
    let id = wire::get_be(p, 0, 4);
    Word {
        id,
        port: byte_at(p, 4) as u32,
        follower: byte_at(p, 5) as u32,
    }
}

// Any event of a frame.
pub fn row_reason(
    file: &[u8],
    p: &[u8],
    v: Version,
    span: usize,
    m: Stage,
    family: Family,
    code: u8,
) -> u8
    requires { (7 ≤ span) × (m.pre + m.due * span ≤ length file.now) }
    ensures { result ≡ row_reason v (state_in file.now span m) family (ev code p.now) }
{
    if family.exists(v) {
        let n = record_size(family, v);
        if p.len() == n {
            let w = word_in(p, code);
            return order_reason(file, v, span, m, family, w);
        }
        return 2;
    }
    18
}
