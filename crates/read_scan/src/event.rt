// One event of the frames: its family, what it says, and whether it may come.
ghost use Rattle.std.specs.Prelude.{◌≡◌, ◌+◌, ◌^◌, ◌≤◌, ◌<◌, length, get_or};
ghost use Rattle.grammar.specs.Machine.{family_of};
ghost use Rattle.read_order.specs.Inner.{order_of, said_of};
ghost use Rattle.read_scan.specs.Inner.{said_at, who_at, kind_of, sizes_in, Asked, Tried};

use crate::sizes::fits;
use format::event::{
    DREAMLAND_WHISPY, FOD_PLATFORM, FRAME_END, FRAME_POST, FRAME_PRE, FRAME_START, ITEM,
    STADIUM_TRANSFORMATION,
};
use format::version::Version;
use layout::columns::Family;
use read_order::due::PortOrder;
use read_order::order::may;
use read_order::stage::{Stage, Word};
use read_order::step::moved;

// A code of the frames, or another.
#[derive(Clone, Copy)]
pub enum Kind {
    Frame(Family),
    Other,
}

pub fn kind_of(code: u8) -> Kind
    ensures { result ≡ kind_of (family_of code) }
{
    if code == FRAME_PRE {
        return Kind::Frame(Family::Pre);
    }
    if code == FRAME_POST {
        return Kind::Frame(Family::Post);
    }
    if code == FRAME_START {
        return Kind::Frame(Family::FrameStart);
    }
    if code == ITEM {
        return Kind::Frame(Family::Item);
    }
    if code == FRAME_END {
        return Kind::Frame(Family::FrameEnd);
    }
    if code == FOD_PLATFORM {
        return Kind::Frame(Family::FodPlatform);
    }
    if code == DREAMLAND_WHISPY {
        return Kind::Frame(Family::DreamlandWhispy);
    }
    if code == STADIUM_TRANSFORMATION {
        return Kind::Frame(Family::StadiumTransformation);
    }
    Kind::Other
}

// The byte at a place, or 0 where there is none.
fn byte_at(file: &[u8], i: usize) -> u8
    ensures { result ≡ get_or file.now i 0 }
{
    if i < file.len() {
        return file[i];
    }
    0
}

// Which player the event at a place says, with no id yet.
fn who_at(file: &[u8], at: usize) -> Word
    requires { at + 5 ≤ length file.now }
    ensures { result ≡ who_at file.now at }
{
    if at + 6 < file.len() {
        return Word {
            id: 0,
            port: file[at + 5] as u32,
            follower: file[at + 6] as u32,
        };
    }
    let port = byte_at(file, at + 5);
    Word {
        id: 0,
        port: port as u32,
        follower: 0,
    }
}

// What the event at a place says. The id is read last, so that its bytes are one read.
fn word_at(file: &[u8], at: usize) -> Word
    requires { at + 5 ≤ length file.now }
    ensures { said_of result ≡ said_at file.now at }
{
    let mut w = who_at(file, at);
    w.id = wire::get_be(file, at + 1, 4);
    w
}

// One turn: the event was taken, or it is wrong.
#[derive(Clone, Copy)]
pub enum Turn {
    Goes {
        stage: Stage,
        next: usize,
        word: Word,
    },
    Refused,
}

// An event of n bytes at a place.
pub fn try_event(
    file: &[u8],
    v: Version,
    sizes: &[usize],
    order: PortOrder,
    span: usize,
    stop: usize,
    m: Stage,
    at: usize,
    n: usize,
    family: Family,
) -> Turn
    requires { Asked v file.now span stop m at × (sizes.now ≡ sizes_in v) × (n < 2 ^ 32) }
    ensures { Tried v (order_of order) file.now span stop m at n family result }
{
    if fits(v, sizes, family, n) {
        if n <= stop - at {
            let w = word_at(file, at);
            if may(file, v, order, span, m, family, w) {
                let next = at + n;
                let stage = moved(file, span, m, family, w, at, next);
                return Turn::Goes {
                    stage,
                    next,
                    word: w,
                };
            }
        }
    }
    Turn::Refused
}

// How many bytes an event of this code has.
pub fn span_of(spans: &[u32], code: u8) -> usize
    requires { length spans.now ≡ 256 }
    ensures { (result ≡ get_or spans.now code 0) × (result < 2 ^ 32) }
{
    spans[wire::wide(code)] as usize
}
