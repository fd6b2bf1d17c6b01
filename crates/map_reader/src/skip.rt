// Values and maps that were read, passed over.
ghost use Rattle.std.specs.Prelude.{◌≡◌, ◌+◌, ◌<◌, ◌≤◌, length};
ghost use Rattle.map_reader.specs.Read.{value_read_at, map_read_at};

use crate::get::{byte_at, text_stop};

// The place after the value at p.
#[cycle(skip_map_skip_value)]
pub fn skip_value(b: &[u8], p: usize, depth: usize) -> usize
    requires { (value_read_at b.now depth p).refusal ≡ 0 }
    ensures { (result ≡ (value_read_at b.now depth p).stop) × (p < result) × (result ≤ length b.now) }
{
    let mark = byte_at(b, p);
    if mark == 0x53 {
        return p + 3 + wire::wide(byte_at(b, p + 2));
    }
    if mark == 0x6c {
        return p + 5;
    }
    skip_map(b, p + 1, depth - 1) + 1
}

// The place after the entries from `at` on.
#[cycle(skip_map_skip_value)]
pub fn skip_map(b: &[u8], at: usize, depth: usize) -> usize
    requires { ((map_read_at b.now depth at).refusal ≡ 0) × (at ≤ length b.now) }
    ensures { (result ≡ (map_read_at b.now depth at).stop) × (at ≤ result) × (result ≤ length b.now) }
{
    let mut p = at;
    // No `for`: how many entries there are shows only as they are read.
    while byte_at(b, p) == 0x55 {
        p = skip_value(b, text_stop(b, p), depth);
    }
    p
}
