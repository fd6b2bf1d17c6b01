// One frame record between a lent store of cells and bytes, both ways, by the widths of its columns.
#![tactic(auto)]

ghost use Rattle.std.specs.Prelude.{◌≡◌, ◌+◌, ◌-◌, ◌≤◌, length, drop};
ghost use Rattle.wire.specs.Wire.{number, part, Room, Wrote};
ghost use Rattle.format.specs.File.{event_bytes};
ghost use Rattle.layout.specs.Columns.{sum};
ghost use Rattle.record.specs.Record.{player_bytes, record_of, read_back};
ghost use Rattle.record.specs.Inner.{head_bytes, InStore};

// What stands before a record's cells. Pre and Post name their player.
#[derive(Clone, Copy)]
pub struct Head {
    pub code: u8,
    pub id: u32,
    pub player: bool,
    pub port: u8,
    pub follower: u8,
}

// How many bytes a head takes.
pub fn head_len(h: Head) -> usize
    ensures { result ≡ length (head_bytes h) }
{
    if h.player { 7 } else { 5 }
}

// Port and follower, for a player's record.
fn put_player(out: &mut [u8], at: usize, h: Head) -> usize
    requires { Room out.old at (player_bytes h) }
    ensures { Wrote out.old out.new at result (player_bytes h) }
{
    if h.player {
        let p = wire::put_u8(out, at, h.port);
        return wire::put_u8(out, p, h.follower);
    }
    at
}

// Code, frame id and player.
pub fn put_head(out: &mut [u8], at: usize, h: Head) -> usize
    requires { Room out.old at (head_bytes h) }
    ensures { Wrote out.old out.new at result (head_bytes h) }
{
    let mut p = wire::put_u8(out, at, h.code);
    p = wire::put_u32(out, p, h.id);
    put_player(out, p, h)
}

// A record: code, frame id, player, and the cells of one row, whose first column's cell is at `first`. The widths add up to `bytes`.
// It is written from its end. Each cell is stored as four bytes, with no test of its width: the bytes above its width fall on
// cells before it, or on the head, which are all still to come.
pub fn put(
    out: &mut [u8],
    at: usize,
    h: Head,
    widths: &[u8],
    bytes: usize,
    cells: &[u32],
    stride: usize,
    first: usize,
) -> usize
    requires { (bytes ≡ sum widths.now)
        × InStore widths.now (length cells.now) stride first
        × Room out.old at (event_bytes (record_of h widths.now cells.now stride first)) }
    ensures { Wrote out.old out.new at result (event_bytes (record_of h widths.now cells.now stride first)) }
{
    let end = at + (head_len(h) + bytes);
    let mut q = end;
    for k in (0..widths.len()).rev() {
        wire::put_u32(out, q - 4, cells[first + k * stride]);
        q -= wire::wide(widths[k]);
    }
    put_head(out, at, h);
    end
}

// Four bytes as a number, the highest first.
pub fn get_four(s: &[u8], at: usize) -> u32
    requires { at + 4 ≤ length s.now }
    ensures { result ≡ number (part s.now at 4) }
{
    wire::get_be(s, at, 4)
}

// The number of the width bytes that end at `end`. Four bytes are read, with no test of the width, and those above it are dropped.
fn get_low(s: &[u8], end: usize, width: usize) -> u32
    requires { (width ≤ 4) × (4 ≤ end) × (end ≤ length s.now) }
    ensures { result ≡ number (part s.now (end - width) width) }
{
    let v = get_four(s, end - 4);
    ((v as u64) % (1u64 << (8 * (width as u64)))) as u32
}

// The cells of one row from the bytes at `at`, which stand after a record's head, of at least four bytes. Answers the place after them.
pub fn get(
    payload: &[u8],
    at: usize,
    widths: &[u8],
    cells: &mut [u32],
    stride: usize,
    first: usize,
) -> usize
    requires { (4 ≤ at) × InStore widths.now (length cells.old) stride first × (at + sum widths.now ≤ length payload.now) }
    ensures { (result ≡ at + sum widths.now)
        × (cells.new ≡ read_back widths.now (drop at payload.now) cells.old stride first) }
{
    let mut p = at;
    let mut i = first;
    for width in widths {
        let w = wire::wide(*width);
        p += w;
        cells[i] = get_low(payload, p, w);
        i += stride;
    }
    p
}
