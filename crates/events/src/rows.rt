// The rows of one frame: a family's row, its rows by offsets, and the players' rows.
ghost use Rattle.std.specs.Prelude.{◌≡◌, ◌≤◌, ◌<◌, length, take};
ghost use Rattle.wire.specs.Wire.{Room, Wrote};
ghost use Rattle.format.specs.File.{event_bytes};
ghost use Rattle.layout.specs.Columns.{sum};
ghost use Rattle.record.specs.Record.{record_of};
ghost use Rattle.record.specs.Inner.{InStore};
ghost use Rattle.events.specs.Inner.{one_bytes, range_bytes, rows_bytes, slots_bytes, LaidOut, PerOffset};
ghost use Rattle.places.specs.Inner.{Seated};

use super::shapes::Shape;
use players::presence::is_present;
use players::slots::Slots;
use record::Head;

// A record whose columns are the first `count` of `widths`.
fn put_row(
    out: &mut [u8],
    at: usize,
    h: Head,
    widths: &[u8],
    count: usize,
    bytes: usize,
    cells: &[u32],
    rows: usize,
    first: usize,
) -> usize
    requires { (count ≤ length widths.now)
        × (bytes ≡ sum (take count widths.now))
        × InStore (take count widths.now) (length cells.now) rows first
        × Room out.old at (event_bytes (record_of h (take count widths.now) cells.now rows first)) }
    ensures { Wrote out.old out.new at result
        (event_bytes (record_of h (take count widths.now) cells.now rows first)) }
{
    record::put(out, at, h, &widths[..count], bytes, cells, rows, first)
}

// Row i of a family that has one a frame, where the version has it.
pub fn put_one(out: &mut [u8], at: usize, m: Shape, cells: &[u32], id: u32, i: usize) -> usize
    requires { LaidOut m cells.now 1 × (i < m.rows) × Room out.old at (one_bytes m cells.now id i) }
    ensures { Wrote out.old out.new at result (one_bytes m cells.now id i) }
{
    if m.given {
        let h = Head {
            code: m.code,
            id,
            player: false,
            port: 0,
            follower: 0,
        };
        return put_row(out, at, h, &m.widths, m.count, m.bytes, cells, m.rows, i);
    }
    at
}

// The rows from a on and before b.
fn put_range(
    out: &mut [u8],
    at: usize,
    m: Shape,
    cells: &[u32],
    id: u32,
    a: usize,
    b: usize,
) -> usize
    requires { LaidOut m cells.now 1 × (a ≤ b) × (b ≤ m.rows) × Room out.old at (range_bytes m cells.now id a b) }
    ensures { Wrote out.old out.new at result (range_bytes m cells.now id a b) }
{
    let h = Head {
        code: m.code,
        id,
        player: false,
        port: 0,
        follower: 0,
    };
    let mut p = at;
    for j in a..b {
        p = put_row(out, p, h, &m.widths, m.count, m.bytes, cells, m.rows, j);
    }
    p
}

// Frame i's rows of a family with offsets, where the version has it.
pub fn put_rows(
    out: &mut [u8],
    at: usize,
    m: Shape,
    cells: &[u32],
    offsets: &[u32],
    frames: usize,
    id: u32,
    i: usize,
) -> usize
    requires { PerOffset m cells.now offsets.now frames × (i < frames) × Room out.old at (rows_bytes m cells.now offsets.now id i) }
    ensures { Wrote out.old out.new at result (rows_bytes m cells.now offsets.now id i) }
{
    if m.given {
        let a = offsets[i] as usize;
        let b = offsets[i + 1] as usize;
        return put_range(out, at, m, cells, id, a, b);
    }
    at
}

// The rows of the players that are present in frame i, slot after slot.
pub fn put_players(
    out: &mut [u8],
    at: usize,
    m: Shape,
    s: Slots,
    cells: &[u32],
    presence: &[u8],
    id: u32,
    i: usize,
) -> usize
    requires { LaidOut m cells.now s.count × Seated s × (i < m.rows) × (m.rows ≤ 1048576)
        × Room out.old at (slots_bytes m s cells.now presence.now id i) }
    ensures { Wrote out.old out.new at result (slots_bytes m s cells.now presence.now id i) }
{
    let mut p = at;
    for k in 0..s.count {
        if is_present(presence, s.at[k], s.len[k], i) {
            let h = Head {
                code: m.code,
                id,
                player: true,
                port: s.ports[k],
                follower: s.followers[k],
            };
            let row = k * m.block + i;
            p = put_row(out, p, h, &m.widths, m.count, m.bytes, cells, m.rows, row);
        }
    }
    p
}
