// Eight frames at once, where they have the same players, whatever rows by offsets stand in them: record by record, column by column.
ghost use Rattle.std.specs.Prelude.{◌≡◌, ◌+◌, ◌≤◌, ◌<◌, length, take};
ghost use Rattle.wire.specs.Wire.{ranged, Room, Wrote};
ghost use Rattle.layout.specs.Columns.{sum};
ghost use Rattle.record.specs.Inner.{InStore};
ghost use Rattle.spread.specs.Inner.{Rooms, Sown, place_at, record_at};
ghost use Rattle.game.specs.Held.{lent_in};
ghost use Rattle.places.specs.Inner.{Seated, Together};
ghost use Rattle.events.specs.Inner.{frame_bytes, LaidOut, Supplied};
ghost use Rattle.events.specs.Eights.{ones_on, players_on, middle_on, frame_on, Absent, Apiece};

use super::middle::put_middles;
use super::shapes::{Shape, Shapes};
use super::spans::spans_of;
use game::stores::Lent;
use places::table::{is_calm, lay_out};
use players::presence::is_present;
use players::slots::Slots;
use record::Head;

// The records of eight rows whose columns are the first `count` of `widths`.
fn put_eight_rows(
    out: &mut [u8],
    places: &[usize],
    x: usize,
    off: usize,
    h: Head,
    ids: &[u32],
    i: usize,
    widths: &[u8],
    count: usize,
    bytes: usize,
    cells: &[u32],
    rows: usize,
    first: usize,
) -> usize
    requires { (count ≤ length widths.now)
        × (bytes ≡ sum (take count widths.now))
        × InStore (take count widths.now) (length cells.now) rows (first + 7)
        × (i + 8 ≤ length ids.now)
        × (x + 8 ≤ length places.now)
        × Rooms out.old (place_at places.now x off) (record_at h ids.now i (take count widths.now) cells.now rows first) }
    ensures { Sown out.old out.new (place_at places.now x off) (place_at places.now x result)
        (record_at h ids.now i (take count widths.now) cells.now rows first) }
{
    spread::put_records(
        out,
        places,
        x,
        off,
        h,
        ids,
        i,
        &widths[..count],
        bytes,
        cells,
        rows,
        first,
    )
}

// Rows i to i + 7 of a family that has one a frame, where the version has it.
fn put_ones(
    out: &mut [u8],
    places: &[usize],
    x: usize,
    off: usize,
    m: Shape,
    cells: &[u32],
    ids: &[u32],
    i: usize,
) -> usize
    requires { LaidOut m cells.now 1 × (i + 8 ≤ m.rows) × (i + 8 ≤ length ids.now) × (x + 8 ≤ length places.now)
        × Rooms out.old (place_at places.now x off) (ones_on m cells.now ids.now i) }
    ensures { Sown out.old out.new (place_at places.now x off) (place_at places.now x result)
        (ones_on m cells.now ids.now i) }
{
    if m.given {
        let h = Head {
            code: m.code,
            id: 0,
            player: false,
            port: 0,
            follower: 0,
        };
        return put_eight_rows(
            out, places, x, off, h, ids, i, &m.widths, m.count, m.bytes, cells, m.rows, i,
        );
    }
    off
}

// The rows of the players of frames i to i + 7, who are the same in all of them, slot after slot.
fn put_teams(
    out: &mut [u8],
    places: &[usize],
    x: usize,
    off: usize,
    m: Shape,
    s: Slots,
    cells: &[u32],
    presence: &[u8],
    ids: &[u32],
    i: usize,
) -> usize
    requires { LaidOut m cells.now s.count × Seated s × (i + 8 ≤ m.rows) × (m.rows ≤ 1048576)
        × (i + 8 ≤ length ids.now) × (x + 8 ≤ length places.now) × Together s presence.now i
        × Rooms out.old (place_at places.now x off) (players_on m s cells.now presence.now ids.now i) }
    ensures { Sown out.old out.new (place_at places.now x off) (place_at places.now x result)
        (players_on m s cells.now presence.now ids.now i) }
{
    let mut p = off;
    for k in 0..s.count {
        if is_present(presence, s.at[k], s.len[k], i) {
            let h = Head {
                code: m.code,
                id: 0,
                player: true,
                port: s.ports[k],
                follower: s.followers[k],
            };
            let row = k * m.block + i;
            p = put_eight_rows(
                out, places, x, p, h, ids, i, &m.widths, m.count, m.bytes, cells, m.rows, row,
            );
        }
    }
    p
}

// Frames i to i + 7, part after part: their starts, the Pre of their players; their rows by offsets; the Post of their players, their ends.
fn put_parts(
    out: &mut [u8],
    places: &[usize],
    i: usize,
    calm: bool,
    shapes: Shapes,
    s: Slots,
    lent: &Lent<'_>,
) -> usize
    requires { let all = lent_in lent.now in
        Supplied shapes s all (length lent.now.cells.ids.now)
        × (i + 8 ≤ length lent.now.cells.ids.now)
        × Together s lent.now.presence.now i
        × Apiece shapes s all i places.now
        × Rooms out.old (place_at places.now 0 0) (frame_on shapes s all i)
        × Absent calm (middle_on shapes lent.now.cells.items.now lent.now.cells.fods.now lent.now.cells.whispys.now lent.now.cells.stadiums.now all.offsets lent.now.cells.ids.now i) }
    ensures { let all = lent_in lent.now in
        Sown out.old out.new (place_at places.now 0 0) (place_at places.now 8 result) (frame_on shapes s all i) }
{
    let mut p = put_ones(
        out,
        places,
        0,
        0,
        shapes.start,
        lent.cells.starts,
        lent.cells.ids,
        i,
    );
    p = put_teams(
        out,
        places,
        0,
        p,
        shapes.pre,
        s,
        lent.cells.pres,
        lent.presence,
        lent.cells.ids,
        i,
    );
    put_middles(out, places, p, calm, shapes, lent, i);
    p = put_teams(
        out,
        places,
        8,
        0,
        shapes.post,
        s,
        lent.cells.posts,
        lent.presence,
        lent.cells.ids,
        i,
    );
    put_ones(
        out,
        places,
        8,
        p,
        shapes.end,
        lent.cells.ends,
        lent.cells.ids,
        i,
    )
}

// Frames i to i + 7, the first of which begins at `at`.
pub fn put_eight(
    out: &mut [u8],
    at: usize,
    i: usize,
    shapes: Shapes,
    s: Slots,
    lent: &Lent<'_>,
) -> usize
    requires { let all = lent_in lent.now in
        Supplied shapes s all (length lent.now.cells.ids.now)
        × (i + 8 ≤ length lent.now.cells.ids.now)
        × Together s lent.now.presence.now i
        × Room out.old at (ranged (frame_bytes shapes s all) i 8) }
    ensures { let all = lent_in lent.now in
        Wrote out.old out.new at result (ranged (frame_bytes shapes s all) i 8) }
{
    let z = spans_of(shapes, s, lent.presence, i);
    let n = lent.cells.ids.len();
    let calm = is_calm(z, &lent.offsets, n, i, i + 8);
    let mut places = [at; 16];
    let end = lay_out(&mut places, at, z, calm, &lent.offsets, n, i);
    put_parts(out, &places, i, calm, shapes, s, lent);
    end
}
