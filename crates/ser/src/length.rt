// The lengths of a file's parts, by counts: what is written into the length field before anything else is.
ghost use Rattle.std.specs.Prelude.{◌≡◌, Bool, false, cond, ◌+◌, ◌*◌, ◌≤◌, ◌<◌, length};
ghost use Rattle.format.specs.File.{table_bytes};
ghost use Rattle.layout.specs.Payloads.{end_size, entries_of};
ghost use Rattle.codes.specs.Blocks.{block_count};
ghost use Rattle.ending.specs.Inner.{end_count};
ghost use Rattle.players.specs.Inner.{Slotted, Modest};
ghost use Rattle.players.specs.Presence.{presence_wrong};
ghost use Rattle.events.specs.Length.{event_size, frames_length};
ghost use Rattle.ser.specs.Length.{raw_length};

use super::judge::is_given;
use format::version::Version;
use game::Game;
use game::end::End;
use game::frames::Frames;
use layout::columns::Family;
use layout::payloads::{end_size, payload_sizes, record_size};
use players::presence::players_present;
use players::slots::Slots;

// The payload table: two bytes, and three an entry.
pub fn table_len(v: Version, block: usize, given: bool, actual: u32) -> usize
    requires { block < 65536 }
    ensures { (result ≡ length (table_bytes (entries_of v block given actual))) × (result ≤ 38) }
{
    let t = payload_sizes(v, block, given, actual);
    2 + 3 * t.len
}

// n records of a family; none where the version lacks it.
pub fn records_len(v: Version, family: Family, n: usize) -> usize
    requires { n ≤ 8388608 }
    ensures { (result ≡ n * event_size v family) × (result ≤ 2147483648) }
{
    if family.exists(v) {
        return n * (1 + record_size(family, v));
    }
    0
}

// The code blocks, 517 bytes each.
pub fn codes_len(given: bool, actual: u32) -> usize
    ensures { (result ≡ cond given (block_count actual * 517) 0) × (result ≤ 4336910336) }
{
    if given {
        return codes::blocks::padded(actual) / 512 * 517;
    }
    0
}

// The ends: none, one or two.
pub fn ends_len(v: Version, e: End, double: u8) -> usize
    ensures { (result ≡ end_count e double * (1 + end_size v)) × (result ≤ 512) }
{
    if e.given == 0 {
        return 0;
    }
    if double == 0 {
        return 1 + end_size(v);
    }
    2 * (1 + end_size(v))
}

// The tail: the metadata in its braces, and the last brace.
pub fn tail_len(given: bool, metadata: usize) -> usize
    requires { metadata ≤ 65535 }
    ensures { (result ≡ cond given (13 + metadata) 1) × (result ≤ 65548) }
{
    if given {
        return 13 + metadata;
    }
    1
}

// The events of the frames.
pub fn frames_len(f: Frames, s: Slots, presence: &[u8]) -> usize
    requires { Modest f × Slotted f s × (presence_wrong f presence.now ≡ false) }
    ensures { (result ≡ frames_length f presence.now) × (result ≤ 17179869184) }
{
    let v = f.version;
    let n = f.counts.frames;
    let players = players_present(f, s, presence);
    let starts = records_len(v, Family::FrameStart, n);
    let pres = records_len(v, Family::Pre, players);
    let fods = records_len(v, Family::FodPlatform, f.counts.fods);
    let whispys = records_len(v, Family::DreamlandWhispy, f.counts.whispys);
    let stadiums = records_len(v, Family::StadiumTransformation, f.counts.stadiums);
    let items = records_len(v, Family::Item, f.counts.items);
    let posts = records_len(v, Family::Post, players);
    let ends = records_len(v, Family::FrameEnd, n);
    starts + (pres + (fods + (whispys + (stadiums + (items + (posts + ends))))))
}

// What the length field says.
pub fn raw_len(g: Game, s: Slots, presence: &[u8], block: usize) -> usize
    requires { Modest g.frames × Slotted g.frames s × (presence_wrong g.frames presence.now ≡ false) × (block < 65536) }
    ensures { (result ≡ raw_length g presence.now block) × (result ≤ 34359738368) }
{
    let f = g.frames;
    let end = g.end;
    let given = is_given(g.codes_given);
    let table = table_len(f.version, block, given, g.actual_size);
    let codes = codes_len(given, g.actual_size);
    let frames = frames_len(f, s, presence);
    let ends = ends_len(f.version, end, g.double_end);
    table + (1 + block + (codes + (frames + ends)))
}
