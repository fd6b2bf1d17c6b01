// One event: what it says, and what becomes of a frame by it.
ghost use Rattle.std.specs.Prelude.{◌≡◌, ◌+◌, ◌≤◌, ◌<◌, leb, length, get_or};
ghost use Rattle.read_order.specs.Inner.{said_of};
ghost use Rattle.read_scan.specs.Counts.{Room};
ghost use Rattle.read_scan.specs.Inner.{said_at, index_of, span_in, sizes_in};
ghost use Rattle.newer_order.specs.Inner.{Fair};
ghost use Rattle.newer_scan.specs.Inner.{counted_in, may_count, Turned};

use format::version::Version;
use known::is_known;
use layout::columns::Family;
use newer_order::order::may;
use newer_order::stage::Stage;
use newer_order::step::moved;
use read_order::stage::Word;
use read_scan::event::{Kind, kind_of};
use read_scan::tally::{Tally, counted};

// A family's index: its place in the declaration.
fn index(family: Family) -> usize
    ensures { (result ≡ index_of family) × (result < 8) }
{
    match family {
        Family::Pre => 0,
        Family::Post => 1,
        Family::FrameStart => 2,
        Family::Item => 3,
        Family::FrameEnd => 4,
        Family::FodPlatform => 5,
        Family::DreamlandWhispy => 6,
        Family::StadiumTransformation => 7,
    }
}

// Whether an event of this span has all that the family's records have.
fn is_whole(v: Version, sizes: &[usize], family: Family, span: usize) -> bool
    requires { sizes.now ≡ sizes_in v }
    ensures { result ≡ leb (span_in v family) span }
{
    sizes[index(family)] <= span
}

// The byte at a place, or 0 where there is none: an event of no player may be the last of a file.
fn byte_at(file: &[u8], i: usize) -> u32
    ensures { result ≡ get_or file.now i 0 }
{
    if i < file.len() {
        return file[i] as u32;
    }
    0
}

// What the event at a place says.
fn word_at(file: &[u8], at: usize) -> Word
    requires { at + 5 ≤ length file.now }
    ensures { said_of result ≡ said_at file.now at }
{
    let port = byte_at(file, at + 5);
    let follower = byte_at(file, at + 6);
    let id = wire::get_be(file, at + 1, 4);
    Word {
        id: id,
        port: port,
        follower: follower,
    }
}

// What is counted after an event that was taken where a frame stood.
fn count(t: Tally, m: Stage, family: Family, w: Word) -> Tally
    requires { Room t × may_count family w }
    ensures { result ≡ counted_in t m family w }
{
    let here = read_order::stage::Stage {
        rank: m.rank,
        id: m.id,
        pre: 0,
        due: 0,
    };
    counted(t, here, family, w)
}

// An event is unknown, is taken, is known and none of a frame's, or is wrong.
#[derive(Clone, Copy)]
pub enum Turn {
    Passes,
    Goes { stage: Stage, counts: Tally },
    Ends,
    Refused,
}

// An event of n bytes at a place, of this code.
pub fn try_event(
    file: &[u8],
    v: Version,
    sizes: &[usize],
    m: Stage,
    t: Tally,
    at: usize,
    n: usize,
    code: u8,
) -> Turn
    requires { Fair m × Room t × (sizes.now ≡ sizes_in v) × (at + n ≤ length file.now) }
    ensures { Turned v file.now m t at n code result }
{
    let k = kind_of(code);
    let Kind::Frame(family) = k else {
        if is_known(code) {
            return Turn::Ends;
        }
        return Turn::Passes;
    };
    if is_whole(v, sizes, family, n) {
        let w = word_at(file, at);
        if may(m, family, w) {
            let stage = moved(m, family, w);
            let counts = count(t, m, family, w);
            return Turn::Goes {
                stage: stage,
                counts: counts,
            };
        }
    }
    Turn::Refused
}
