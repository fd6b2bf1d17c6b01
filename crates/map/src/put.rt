// The writer of a map's body, from rows of five cells: kind, key's place, key's length, then a text's place and length, a number, or how many entries a map has.
ghost use Rattle.std.specs.Prelude.{◌≡◌, true, ◌+◌, ◌*◌, ◌<◌, ◌≤◌, ◌^◌, length};
ghost use Rattle.wire.specs.Wire.{Room, Wrote, part};
ghost use Rattle.map.specs.Map.{text_bytes, value_bytes, body_of};
ghost use Rattle.map.specs.Rows.{cell_of, key_of, plain_of, map_at};
ghost use Rattle.map.specs.Inner.{inside};

// The place after what was written, and the row after the map's last.
#[derive(Clone, Copy)]
pub struct Put {
    pub at: usize,
    pub next: usize,
}

// Cell j of row k.
pub fn cell(rows: &[u32], k: usize, j: usize) -> usize
    requires { 5 * k + j < length rows.now }
    ensures { (result ≡ cell_of rows.now k j) × (result < 2 ^ 32) }
{
    rows[5 * k + j] as usize
}

// The text of `len` bytes at `from`.
fn put_text(out: &mut [u8], at: usize, texts: &[u8], from: usize, len: usize) -> usize
    requires { (from + len ≤ length texts.now) × (len < 256) × Room out.old at (text_bytes (part texts.now from len)) }
    ensures { Wrote out.old out.new at result (text_bytes (part texts.now from len)) }
{
    let to = from + len;
    let mut p = wire::put_u8(out, at, 0x55);
    p = wire::put_u8(out, p, len as u8);
    wire::put_bytes(out, p, &texts[from..to])
}

// The key of row k.
fn put_key(out: &mut [u8], at: usize, rows: &[u32], texts: &[u8], k: usize) -> usize
    requires { (inside rows.now texts.now k ≡ true) × Room out.old at (text_bytes (key_of rows.now texts.now k)) }
    ensures { Wrote out.old out.new at result (text_bytes (key_of rows.now texts.now k)) }
{
    put_text(out, at, texts, cell(rows, k, 1), cell(rows, k, 2))
}

// The value of row k, which is no map.
fn put_plain(out: &mut [u8], at: usize, rows: &[u32], texts: &[u8], k: usize) -> usize
    requires { (inside rows.now texts.now k ≡ true) × Room out.old at (value_bytes (plain_of rows.now texts.now k)) }
    ensures { Wrote out.old out.new at result (value_bytes (plain_of rows.now texts.now k)) }
{
    if cell(rows, k, 0) == 0 {
        let p = wire::put_u8(out, at, 0x53);
        return put_text(out, p, texts, cell(rows, k, 3), cell(rows, k, 4));
    }
    let p = wire::put_u8(out, at, 0x6c);
    wire::put_u32(out, p, cell(rows, k, 3) as u32)
}

// The body of the map of `count` entries whose rows begin at i. Its maps may nest `depth` deep.
pub fn put_map(
    out: &mut [u8],
    at: usize,
    rows: &[u32],
    texts: &[u8],
    i: usize,
    count: usize,
    depth: usize,
) -> Put
    requires { ((map_at rows.now texts.now depth i count).refusal ≡ 0)
        × Room out.old at (body_of (map_at rows.now texts.now depth i count).map) }
    ensures { Wrote out.old out.new at result.at (body_of (map_at rows.now texts.now depth i count).map)
        × (result.next ≡ (map_at rows.now texts.now depth i count).next) }
{
    let mut p = at;
    let mut k = i;
    for _ in 0..count {
        p = put_key(out, p, rows, texts, k);
        if cell(rows, k, 0) == 2 {
            p = wire::put_u8(out, p, 0x7b);
            let inner = put_map(out, p, rows, texts, k + 1, cell(rows, k, 3), depth - 1);
            p = wire::put_u8(out, inner.at, 0x7d);
            k = inner.next;
        } else {
            p = put_plain(out, p, rows, texts, k);
            k += 1;
        }
    }
    Put { at: p, next: k }
}
