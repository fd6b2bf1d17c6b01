// The payload table of a version.
ghost use Rattle.std.specs.Prelude.{◌≡◌, false, cond, ◌<◌, map};
ghost use Rattle.wire.specs.Wire.{Room, Wrote};
ghost use Rattle.format.specs.Version.{has_codes};
ghost use Rattle.format.specs.File.{entries_bytes, table_bytes};
ghost use Rattle.layout.specs.Payloads.{event_of, head_size, record_size, end_size, listed, payload_size, entries_of};
ghost use Rattle.layout.specs.Inner.{entry_as, Tabled};

use super::columns::Family;
use super::listing::size;
use format::event::Event;
use format::version::Version;

// The event of a family's records.
pub fn event_of(f: Family) -> Event
    ensures { result ≡ event_of f }
{
    match f {
        Family::Pre => Event::FramePre,
        Family::Post => Event::FramePost,
        Family::FrameStart => Event::FrameStart,
        Family::Item => Event::Item,
        Family::FrameEnd => Event::FrameEnd,
        Family::FodPlatform => Event::FodPlatform,
        Family::DreamlandWhispy => Event::DreamlandWhispy,
        Family::StadiumTransformation => Event::StadiumTransformation,
    }
}

// The bytes before a record's columns, after its code.
fn head_size(f: Family) -> usize
    ensures { result ≡ head_size f }
{
    match f {
        Family::Pre | Family::Post => 6,
        Family::FrameStart
        | Family::Item
        | Family::FrameEnd
        | Family::FodPlatform
        | Family::DreamlandWhispy
        | Family::StadiumTransformation => 4,
    }
}

// The payload of a family's record.
pub fn record_size(f: Family, v: Version) -> usize
    ensures { (result ≡ record_size f v) × (result < 256) }
{
    head_size(f) + size(f, v)
}

// The payload of GameEnd.
pub fn end_size(v: Version) -> usize
    ensures { (result ≡ end_size v) × (result < 256) }
{
    if v.has_placements() {
        return 6;
    }
    if v.has_initiator() {
        return 2;
    }
    1
}

// The events of the table, in its order.
const ORDER: [Event; 12] = [
    Event::GameStart,
    Event::FramePre,
    Event::FramePost,
    Event::GameEnd,
    Event::FrameStart,
    Event::Item,
    Event::FrameEnd,
    Event::GeckoCodes,
    Event::MessageSplitter,
    Event::FodPlatform,
    Event::DreamlandWhispy,
    Event::StadiumTransformation,
];

// Codes are listed where they are given, from 3.3 on.
fn with_codes(v: Version, given: bool) -> bool
    ensures { result ≡ cond given (has_codes v) false }
{
    given && v.has_codes()
}

// Whether a version's table lists an event, with codes given or not.
#[tactic(auto, unfolding(crate::specs::Payloads::listed))]
pub fn is_listed(e: Event, v: Version, given: bool) -> bool
    ensures { result ≡ listed v given e }
{
    match e {
        Event::Payloads => false,
        Event::GameStart => true,
        Event::FramePre => Family::Pre.exists(v),
        Event::FramePost => Family::Post.exists(v),
        Event::GameEnd => true,
        Event::FrameStart => Family::FrameStart.exists(v),
        Event::Item => Family::Item.exists(v),
        Event::FrameEnd => Family::FrameEnd.exists(v),
        Event::GeckoCodes | Event::MessageSplitter => with_codes(v, given),
        Event::FodPlatform => Family::FodPlatform.exists(v),
        Event::DreamlandWhispy => Family::DreamlandWhispy.exists(v),
        Event::StadiumTransformation => Family::StadiumTransformation.exists(v),
    }
}

// The size of an event's payload, with a start block of `block` bytes and codes of `actual` bytes.
#[tactic(auto, unfolding(crate::specs::Payloads::payload_size))]
pub fn payload_size(e: Event, v: Version, block: usize, actual: u32) -> usize
    requires { block < 65536 }
    ensures { (result ≡ payload_size v block actual e) × (result < 65536) }
{
    match e {
        Event::Payloads => 0,
        Event::GameStart => block,
        Event::FramePre => record_size(Family::Pre, v),
        Event::FramePost => record_size(Family::Post, v),
        Event::GameEnd => end_size(v),
        Event::FrameStart => record_size(Family::FrameStart, v),
        Event::Item => record_size(Family::Item, v),
        Event::FrameEnd => record_size(Family::FrameEnd, v),
        Event::GeckoCodes => (actual % 65536) as usize,
        Event::MessageSplitter => 516,
        Event::FodPlatform => record_size(Family::FodPlatform, v),
        Event::DreamlandWhispy => record_size(Family::DreamlandWhispy, v),
        Event::StadiumTransformation => record_size(Family::StadiumTransformation, v),
    }
}

// An entry of the payload table: an event's code and its payload's size.
#[derive(Clone, Copy)]
pub struct PayloadSize {
    pub code: u8,
    pub size: u16,
}

// The payload table: the first `len` entries.
#[derive(Clone, Copy)]
pub struct PayloadSizes {
    pub entries: [PayloadSize; 12],
    pub len: usize,
}

pub fn payload_sizes(v: Version, block: usize, given: bool, actual: u32) -> PayloadSizes
    requires { block < 65536 }
    ensures { Tabled (entries_of v block given actual) result }
{
    let mut entries = [PayloadSize { code: 0, size: 0 }; 12];
    let mut len: usize = 0;
    for e in ORDER {
        if is_listed(e, v, given) {
            entries[len] = PayloadSize {
                code: e.code(),
                size: payload_size(e, v, block, actual) as u16,
            };
            len += 1;
        }
    }
    PayloadSizes { entries, len }
}

// The entries of a table, three bytes each.
fn put_entries(out: &mut [u8], at: usize, entries: &[PayloadSize]) -> usize
    requires { Room out.old at (entries_bytes (map entry_as entries.now)) }
    ensures { Wrote out.old out.new at result (entries_bytes (map entry_as entries.now)) }
{
    let mut p = at;
    for e in entries {
        p = wire::put_u8(out, p, e.code);
        p = wire::put_u16(out, p, e.size as u32);
    }
    p
}

// The table as the first event of a replay: its code, its own size, and its entries.
pub fn put_table(
    out: &mut [u8],
    at: usize,
    v: Version,
    block: usize,
    given: bool,
    actual: u32,
) -> usize
    requires { (block < 65536) × Room out.old at (table_bytes (entries_of v block given actual)) }
    ensures { Wrote out.old out.new at result (table_bytes (entries_of v block given actual)) }
{
    let t = payload_sizes(v, block, given, actual);
    let mut p = wire::put_u8(out, at, Event::Payloads.code());
    p = wire::put_u8(out, p, (3 * t.len + 1) as u8);
    put_entries(out, p, &t.entries[..t.len])
}
