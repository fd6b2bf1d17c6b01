// The records of eight rows that follow each other, each at a place of its own, column by column: a column's eight cells stand together in its store.
#![tactic(auto)]

ghost use Rattle.std.specs.Prelude.{◌≡◌, ◌+◌, ◌≤◌, length};
ghost use Rattle.layout.specs.Columns.{sum};
ghost use Rattle.record.specs.Record.{player_bytes};
ghost use Rattle.record.specs.Inner.{InStore};
ghost use Rattle.spread.specs.Inner.{Reach, Rooms, Sown, Strewn, cell_at, head_at, place_at, record_at};

use record::{Head, head_len};

// Eight cells as four bytes each, `off` behind the eight places that the table has from i on. Inlined: a call for each column would cost more than the column.
#[inline(always)]
fn put_column(out: &mut [u8], places: &[usize], i: usize, off: usize, cells: &[u32], first: usize)
    requires { (first + 8 ≤ length cells.now) × (i + 8 ≤ length places.now) × Reach out.old places.now i (off + 4) }
    ensures { Strewn out.old out.new (place_at places.now i off) (cell_at cells.now first) 8 }
{
    for t in 0..8 {
        let p = places[i + t] + off;
        wire::put_u32(out, p, cells[first + t]);
    }
}

// The same bytes at such places. Inlined, since a caller knows how many they are.
#[inline(always)]
fn put_same(out: &mut [u8], places: &[usize], i: usize, off: usize, bytes: &[u8])
    requires { (i + 8 ≤ length places.now) × Reach out.old places.now i (off + length bytes.now) }
    ensures { Strewn out.old out.new (place_at places.now i off) (λ t. bytes.now) 8 }
{
    for t in 0..8 {
        let p = places[i + t] + off;
        wire::put_bytes(out, p, bytes);
    }
}

// Port and follower, for players' records.
fn put_players(out: &mut [u8], places: &[usize], i: usize, off: usize, h: Head)
    requires { (i + 8 ≤ length places.now) × Reach out.old places.now i (off + length (player_bytes h)) }
    ensures { Strewn out.old out.new (place_at places.now i off) (λ t. player_bytes h) 8 }
{
    if h.player {
        put_same(out, places, i, off, &[h.port, h.follower]);
    }
}

// Eight heads at such places, part by part too: the codes, the ids from j on, and the players.
fn put_heads(out: &mut [u8], places: &[usize], i: usize, off: usize, h: Head, ids: &[u32], j: usize)
    requires { (j + 8 ≤ length ids.now) × (i + 8 ≤ length places.now) × Rooms out.old (place_at places.now i off) (head_at h ids.now j) }
    ensures { Strewn out.old out.new (place_at places.now i off) (head_at h ids.now j) 8 }
{
    put_same(out, places, i, off, &[h.code]);
    put_column(out, places, i, off + 1, ids, j);
    put_players(out, places, i, off + 5, h);
}

// The records of eight rows, `off` behind the eight places that the table has from i on, each as `record::put` writes it: from the end, and all
// eight cells of a column together. Answers how far behind its place each record ends.
pub fn put_records(
    out: &mut [u8],
    places: &[usize],
    i: usize,
    off: usize,
    h: Head,
    ids: &[u32],
    j: usize,
    widths: &[u8],
    bytes: usize,
    cells: &[u32],
    stride: usize,
    first: usize,
) -> usize
    requires { (bytes ≡ sum widths.now)
        × InStore widths.now (length cells.now) stride (first + 7)
        × (j + 8 ≤ length ids.now)
        × (i + 8 ≤ length places.now)
        × Rooms out.old (place_at places.now i off) (record_at h ids.now j widths.now cells.now stride first) }
    ensures { Sown out.old out.new (place_at places.now i off) (place_at places.now i result)
        (record_at h ids.now j widths.now cells.now stride first) }
{
    let end = off + (head_len(h) + bytes);
    let mut q = end;
    for k in (0..widths.len()).rev() {
        put_column(out, places, i, q - 4, cells, first + k * stride);
        q -= wire::wide(widths[k]);
    }
    put_heads(out, places, i, off, h, ids, j);
    end
}
