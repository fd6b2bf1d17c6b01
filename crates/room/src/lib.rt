// How much room to reserve for a replay before its game is known.
#![tactic(auto)]

ghost use Rattle.std.specs.Prelude.{◌≡◌, true, map, ◌≤◌, length};
ghost use Rattle.format.specs.File.{table_bytes};
ghost use Rattle.format.specs.Refusal.{lowest};
ghost use Rattle.format.specs.Refused.{number_in};
ghost use Rattle.layout.specs.Columns.{sum};
ghost use Rattle.layout.specs.Payloads.{order, entries_of};
ghost use Rattle.room.specs.Room.{with_frames, how_many, event_room, counted, room_refusals, reserved};
ghost use Rattle.room.specs.Inner.{Bounded, frames_room};

use format::event::Event;
use format::refusal::Refusal;
use format::version::Version;
use game::frames::{Counts, Frames, PortColumn};
use layout::payloads::{is_listed, payload_size, payload_sizes};

// What a file will have at most: the start block's bytes, the slots of its players, the rows of its families, the bytes of its codes and of
// its metadata's body.
#[repr(C)]
#[derive(Clone, Copy)]
pub struct Plan {
    pub version: Version,
    pub block: usize,
    pub slots: usize,
    pub counts: Counts,
    pub codes: usize,
    pub metadata: usize,
}

// The refusal's number, or 0 and the bytes.
#[repr(C)]
#[derive(Clone, Copy)]
pub struct Reserved {
    pub refused: u8,
    pub bytes: usize,
}

const MAX_SLOTS: usize = 8;

// A frame input with the counts and no ports.
fn input(p: Plan) -> Frames
    ensures { result ≡ counted p }
{
    let none = PortColumn {
        port: 0,
        follower: 0,
        leader_presence: 0,
        follower_presence: 0,
    };
    let version = p.version;
    let counts = p.counts;
    Frames {
        version,
        counts,
        ports: [none; 4],
        port_count: 0,
    }
}

fn judge(p: Plan) -> Result<(), Refusal>
    ensures { number_in result ≡ lowest (room_refusals p) }
{
    let f = input(p);
    if frames::judge::too_new(f) {
        return Err(Refusal::VersionTooNew);
    }
    if frames::judge::too_many(f, p.codes, p.metadata) {
        return Err(Refusal::TooMany);
    }
    if MAX_SLOTS < p.slots {
        return Err(Refusal::BadPorts);
    }
    if start::judge::block_wrong(p.version, p.block) {
        return Err(Refusal::BadBlock);
    }
    Ok(())
}

// Rows of a family with offsets: none without frames.
fn rows_with_frames(p: Plan, rows: usize) -> usize
    ensures { (result ≡ with_frames p rows) × (result ≤ rows) }
{
    if p.counts.frames == 0 {
        return 0;
    }
    rows
}

// How many of an event a file has at most.
fn how_many(p: Plan, e: Event) -> usize
    requires { Bounded p }
    ensures { (result ≡ how_many p e) × (result ≤ 8388608) }
{
    match e {
        Event::Payloads => 1,
        Event::GameStart => 1,
        Event::FramePre => p.slots * p.counts.frames,
        Event::FramePost => p.slots * p.counts.frames,
        Event::GameEnd => 2,
        Event::FrameStart => p.counts.frames,
        Event::Item => rows_with_frames(p, p.counts.items),
        Event::FrameEnd => p.counts.frames,
        Event::GeckoCodes => 0,
        Event::MessageSplitter => p.codes / 512,
        Event::FodPlatform => rows_with_frames(p, p.counts.fods),
        Event::DreamlandWhispy => rows_with_frames(p, p.counts.whispys),
        Event::StadiumTransformation => rows_with_frames(p, p.counts.stadiums),
    }
}

// The bytes of all of an event, where the version's table lists it.
fn event_len(p: Plan, e: Event) -> usize
    requires { Bounded p }
    ensures { (result ≡ event_room p e) × (result ≤ 549755813888) }
{
    if is_listed(e, p.version, true) {
        return how_many(p, e) * (1 + payload_size(e, p.version, p.block, 0));
    }
    0
}

// The events of the frames.
fn frames_len(p: Plan) -> usize
    requires { Bounded p }
    ensures { (result ≡ frames_room p) × (result ≤ 8796093022208) }
{
    let starts = event_len(p, Event::FrameStart);
    let pres = event_len(p, Event::FramePre);
    let fods = event_len(p, Event::FodPlatform);
    let whispys = event_len(p, Event::DreamlandWhispy);
    let stadiums = event_len(p, Event::StadiumTransformation);
    let items = event_len(p, Event::Item);
    let posts = event_len(p, Event::FramePost);
    let ends = event_len(p, Event::FrameEnd);
    starts + (pres + (fods + (whispys + (stadiums + (items + (posts + ends))))))
}

// All events: GeckoCodes is listed, but never written.
fn events_len(p: Plan) -> usize
    requires { Bounded p }
    ensures { (result ≡ sum (map (event_room p) order)) × (result ≤ 17592186044416) }
{
    let start = event_len(p, Event::GameStart);
    let codes = event_len(p, Event::MessageSplitter);
    let frames = frames_len(p);
    let ends = event_len(p, Event::GameEnd);
    start + (codes + (frames + ends))
}

// The payload table with codes: two bytes, and three an entry.
fn table_len(p: Plan) -> usize
    requires { Bounded p }
    ensures { (result ≡ length (table_bytes (entries_of p.version p.block true 0))) × (result ≤ 38) }
{
    let t = payload_sizes(p.version, p.block, true, 0);
    2 + 3 * t.len
}

// The bytes that no file of at most these counts exceeds.
pub fn room(p: Plan) -> Reserved
    ensures { result ≡ reserved p }
{
    if let Err(refusal) = judge(p) {
        return Reserved {
            refused: refusal.number(),
            bytes: 0,
        };
    }
    let table = table_len(p);
    let events = events_len(p);
    Reserved {
        refused: 0,
        bytes: 15 + (table + (events + (13 + p.metadata))),
    }
}
