// Whether a key stands twice in a map of rows.
ghost use Rattle.std.specs.Prelude.{◌≡◌, Bool, true, ◌&&◌, ℕ, ◌+◌, ◌*◌, ◌<◌, ◌≤◌, ◌^◌, [], length};
ghost use Rattle.wire.specs.Wire.{part};
ghost use Rattle.map.specs.Map.{same};
ghost use Rattle.map.specs.Rows.{key_of, stored, map_at};
ghost use Rattle.map.specs.Keys.{key_stored, doubled_at};
ghost use Rattle.map.specs.Inner.{Repeats};

use crate::put::cell;

// Whether two texts of a store are the same: m bytes at x, n bytes at y.
pub fn same_text(texts: &[u8], x: usize, m: usize, y: usize, n: usize) -> bool
    requires { (x + m ≤ length texts.now) × (y + n ≤ length texts.now) }
    ensures { result ≡ same (part texts.now x m) (part texts.now y n) }
{
    texts[x..x + m] == texts[y..y + n]
}

// Whether the store has the key of row k.
fn key_stored(rows: &[u32], texts: &[u8], k: usize) -> bool
    requires { 5 * k + 4 < length rows.now }
    ensures { result ≡ key_stored rows.now texts.now k }
{
    cell(rows, k, 1) + cell(rows, k, 2) <= texts.len()
}

// Whether rows q and k have the same key, that of row k being stored.
fn same_key(rows: &[u32], texts: &[u8], q: usize, k: usize) -> bool
    requires { (5 * q + 4 < length rows.now) × (5 * k + 4 < length rows.now) × (key_stored rows.now texts.now k ≡ true) }
    ensures { result ≡ (key_stored rows.now texts.now q
        && same (key_of rows.now texts.now q) (key_of rows.now texts.now k)) }
{
    if key_stored(rows, texts, q) {
        return same_text(
            texts,
            cell(rows, q, 1),
            cell(rows, q, 2),
            cell(rows, k, 1),
            cell(rows, k, 2),
        );
    }
    false
}

// The row after `count` entries from row i on, of a map that may nest `depth` deep.
pub fn skip_rows(rows: &[u32], i: usize, count: usize, depth: usize) -> usize
    ensures { (result ≡ (map_at rows.now [] depth i count).next) × (i ≤ result) × (0 < count → 5 * i + 4 < length rows.now → i < result) }
{
    let mut k = i;
    // counted down: one number is kept over the inner call, and most maps have few entries
    for _ in (0..count).rev() {
        if rows.len() / 5 <= k {
            return k;
        }
        if cell(rows, k, 0) != 2 {
            k += 1;
        } else if depth == 0 {
            k += 1;
        } else {
            k = skip_rows(rows, k + 1, cell(rows, k, 3), depth - 1);
        }
    }
    k
}

// Whether row k repeats a stored key of the entries from row i up to it.
fn repeats(rows: &[u32], texts: &[u8], i: usize, k: usize, depth: usize) -> bool
    requires { 5 * k + 4 < length rows.now }
    ensures { Repeats rows.now texts.now depth i k result }
{
    if key_stored(rows, texts, k) {
        let mut q = i;
        // No `for`: an entry ends where its rows say.
        while q < k {
            if same_key(rows, texts, q, k) {
                return true;
            }
            q = skip_rows(rows, q, 1, depth);
        }
    }
    false
}

// Whether a key stands twice in the map of `count` entries whose rows begin at i, or in one inside it.
pub fn doubled(rows: &[u32], texts: &[u8], i: usize, count: usize, depth: usize) -> bool
    ensures { result ≡ doubled_at rows.now texts.now depth i count }
{
    let mut k = i;
    for _ in 0..count {
        if rows.len() / 5 <= k {
            return false;
        }
        if repeats(rows, texts, i, k, depth) {
            return true;
        }
        let at = k;
        k = skip_rows(rows, at, 1, depth);
        if cell(rows, at, 0) == 2 {
            if 0 < depth {
                if doubled(rows, texts, at + 1, cell(rows, at, 3), depth - 1) {
                    return true;
                }
            }
        }
    }
    false
}
