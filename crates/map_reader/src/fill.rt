// The rows of a body that was accepted: its entries in their order, with their texts where they stand in the body.
ghost use Rattle.std.specs.Prelude.{◌≡◌, [], ◌∷◌, ◌+◌, ◌*◌, ◌<◌, ◌≤◌, ◌^◌, length, get_or};
ghost use Rattle.wire.specs.Wire.{Room, Wrote};
ghost use Rattle.map_reader.specs.Read.{map_read_at, value_read_at};
ghost use Rattle.map_reader.specs.Back.{entry_row, map_rows, count_of};

use crate::get::{byte_at, text_stop};

// The place after the entries, the row after theirs, and how many there are.
#[derive(Clone, Copy)]
pub struct Filled {
    pub stop: usize,
    pub next: usize,
    pub count: usize,
}

// Row k.
fn put_row(rows: &mut [u32], k: usize, kind: u32, key: usize, len: usize, x: usize, y: usize)
    requires { (5 * k + 5 ≤ length rows.old) × (key < 2 ^ 32) × (len < 2 ^ 32) × (x < 2 ^ 32) × (y < 2 ^ 32) }
    ensures { Wrote rows.old rows.new (5 * k) (5 * k + 5) (kind ∷ key ∷ len ∷ x ∷ y ∷ []) }
{
    let at = 5 * k;
    rows[at] = kind;
    rows[at + 1] = key as u32;
    rows[at + 2] = len as u32;
    rows[at + 3] = x as u32;
    rows[at + 4] = y as u32;
}

// Row k, of a text or a number at q. It answers the place after the value.
fn fill_plain(b: &[u8], q: usize, key: usize, len: usize, rows: &mut [u32], k: usize) -> usize
    requires { ((value_read_at b.now 0 q).refusal ≡ 0) × (length b.now < 2 ^ 32) × (key < 2 ^ 32) × (len < 2 ^ 32) × (5 * k + 5 ≤ length rows.old) }
    ensures { (result ≡ (value_read_at b.now 0 q).stop)
        × Wrote rows.old rows.new (5 * k) (5 * k + 5) (entry_row key len (value_read_at b.now 0 q).value q) }
{
    if byte_at(b, q) == 0x53 {
        let n = byte_at(b, q + 2) as usize;
        put_row(rows, k, 0, key, len, q + 3, n);
        return q + 3 + n;
    }
    put_row(rows, k, 1, key, len, wire::get_be(b, q + 1, 4) as usize, 0);
    q + 5
}

// The rows of the entries from `at` on, from row i on.
pub fn fill_map(b: &[u8], at: usize, depth: usize, rows: &mut [u32], i: usize) -> Filled
    requires { ((map_read_at b.now depth at).refusal ≡ 0) × (at ≤ length b.now) × (length b.now < 2 ^ 32)
        × Room rows.old (5 * i) (map_rows (map_read_at b.now depth at).map at) }
    ensures { (result.stop ≡ (map_read_at b.now depth at).stop)
        × (result.count ≡ count_of (map_read_at b.now depth at).map) × (result.count ≤ length b.now)
        × Wrote rows.old rows.new (5 * i) (5 * result.next) (map_rows (map_read_at b.now depth at).map at) }
{
    let mut p = at;
    let mut k = i;
    let mut n: usize = 0;
    // No `for`: how many entries there are shows only as they are read.
    while byte_at(b, p) == 0x55 {
        let q = text_stop(b, p);
        let key = p + 2;
        n += 1;
        if byte_at(b, q) == 0x7b {
            let inner = fill_map(b, q + 1, depth - 1, rows, k + 1);
            put_row(rows, k, 2, key, q - key, inner.count, 0);
            p = inner.stop + 1;
            k = inner.next;
        } else {
            p = fill_plain(b, q, key, q - key, rows, k);
            k += 1;
        }
    }
    Filled {
        stop: p,
        next: k,
        count: n,
    }
}
