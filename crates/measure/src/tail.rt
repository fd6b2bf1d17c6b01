// What stands round the replay in a file: its payload table's entry for codes before it, and a tail behind it.
ghost use Rattle.std.specs.Prelude.{◌≡◌, true, ◌+◌, ◌≤◌, length, drop};
ghost use Rattle.ending.specs.Tail.{metadata_key};
ghost use Rattle.head.specs.Table.{starts_with, table_of, first_place};
ghost use Rattle.read_judge.specs.Found.{gecko_span};
ghost use Rattle.measure.specs.Game.{bare, has_body, tail_kind};
ghost use Rattle.measure.specs.Inner.{places_by};

use super::Places;
use ending::tail::METADATA_KEY;
use format::event::GECKO_CODES;

// Whether a tail begins with the metadata's key.
fn has_key(tail: &[u8]) -> bool
    requires { 13 ≤ length tail.now }
    ensures { result ≡ starts_with metadata_key tail.now }
{
    let mut i = 0;
    while i < 11 {
        if tail[i] != METADATA_KEY[i] {
            return false;
        }
        i += 1;
    }
    true
}

// Whether it is the key, a body of at most 65,535 bytes, and two braces.
fn has_body(tail: &[u8]) -> bool
    ensures { (result ≡ has_body tail.now) × (result ≡ true → 13 ≤ length tail.now) }
{
    let n = tail.len();
    if n < 13 {
        return false;
    }
    if 65548 < n {
        return false;
    }
    if has_key(tail) {
        if tail[n - 2] == 0x7d {
            return tail[n - 1] == 0x7d;
        }
    }
    false
}

// Whether it is one brace.
fn is_bare(tail: &[u8]) -> bool
    ensures { result ≡ bare tail.now }
{
    if tail.len() == 1 {
        return tail[0] == 0x7d;
    }
    false
}

// 0 for one brace, 1 for metadata, 2 for anything else.
fn kind_of(tail: &[u8]) -> u8
    ensures { (result ≡ tail_kind tail.now) × (result ≡ 1 → 13 ≤ length tail.now) }
{
    if is_bare(tail) {
        return 0;
    }
    if has_body(tail) {
        return 1;
    }
    2
}

// What stands in a file from a place on: 0 for one brace, 1 for metadata, 2 for anything else.
pub fn tail_kind(file: &[u8], stop: usize) -> u8
    requires { stop ≤ length file.now }
    ensures { (result ≡ tail_kind (drop stop file.now)) × (result ≡ 1 → stop + 13 ≤ length file.now) }
{
    let n = file.len();
    kind_of(&file[stop..n])
}

// Where the parts stand that are not in the game, of a file whose events go from one place to another.
pub fn places(file: &[u8], first: usize, stop: usize, block_len: usize) -> Places
    requires { (stop ≤ length file.now) × (first + 1 ≤ length file.now) }
    ensures { result ≡ places_by file.now first stop block_len }
{
    let tail = tail_kind(file, stop);
    if tail == 1 {
        return Places {
            block_at: first + 1,
            block_len,
            tail,
            metadata_at: stop + 11,
            metadata_len: file.len() - stop - 13,
        };
    }
    Places {
        block_at: first + 1,
        block_len,
        tail,
        metadata_at: 0,
        metadata_len: 0,
    }
}

// How many bytes an event of code 3D has by the table, or 0.
pub fn gecko_span(file: &[u8], first: usize) -> usize
    requires { (first ≡ first_place (table_of file.now)) × (first ≤ length file.now) }
    ensures { result ≡ gecko_span file.now }
{
    let mut at = 17;
    let mut left = (first - 17) / 3;
    while 0 < left {
        if file[at] == GECKO_CODES {
            return 1 + wire::get_be(file, at + 1, 2) as usize;
        }
        at += 3;
        left -= 1;
    }
    0
}
