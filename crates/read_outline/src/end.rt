// One end at a place, and what it says.
ghost use Rattle.std.specs.Prelude.{◌≡◌, ℕ, cond, true, ◌+◌, ◌≤◌, length};
ghost use Rattle.wire.specs.Wire.{part};
ghost use Rattle.format.specs.Version.{has_placements};
ghost use Rattle.layout.specs.Payloads.{end_size};
ghost use Rattle.read_outline.specs.End.{mark_by, value_by, of_four, four_zeros, initiator_in, placed_in, placements_in};
ghost use Rattle.read_outline.specs.Inner.{Within, initiator_at, end_here, right_at, same_run, second_at};

use format::event::GAME_END;
use format::version::Version;
use layout::payloads::end_size;
use read_scan::event::span_of;

// Whether the end names an initiator from -1 to 3, where the version names one.
fn initiator_right(file: &[u8], v: Version, at: usize) -> bool
    requires { at + (1 + end_size v) ≤ length file.now }
    ensures { result ≡ initiator_at v file.now at }
{
    if v.has_initiator() {
        let initiator = file[at + 2];
        if initiator <= 3 {
            return true;
        }
        return initiator == 255;
    }
    true
}

// Whether an end of the version's size stands whole before stop.
pub fn is_end(file: &[u8], spans: &[u32], v: Version, at: usize, stop: usize) -> bool
    requires { Within file.now spans.now stop at }
    ensures { (result ≡ end_here v file.now spans.now stop at) × (result ≡ true → at + (1 + end_size v) ≤ stop) }
{
    let n = 1 + end_size(v);
    if stop - at < n {
        return false;
    }
    if file[at] != GAME_END {
        return false;
    }
    span_of(spans, GAME_END) == n
}

// Whether an end stands whole before stop that names an initiator it may name.
pub fn is_right(file: &[u8], spans: &[u32], v: Version, at: usize, stop: usize) -> bool
    requires { Within file.now spans.now stop at }
    ensures { (result ≡ right_at v file.now spans.now stop at) × (result ≡ true → at + (1 + end_size v) ≤ stop) }
{
    if is_end(file, spans, v, at, stop) {
        return initiator_right(file, v, at);
    }
    false
}

// Whether n bytes at one place are those at another.
fn same_run(file: &[u8], a: usize, b: usize, n: usize) -> bool
    requires { (a + n ≤ length file.now) × (b + n ≤ length file.now) }
    ensures { result ≡ same_run file.now a b n }
{
    file[a..a + n] == file[b..b + n]
}

// Whether a second end, like the first, fills the rest.
pub fn is_second(
    file: &[u8],
    spans: &[u32],
    v: Version,
    first: usize,
    at: usize,
    stop: usize,
) -> bool
    requires { Within file.now spans.now stop at × (first + (1 + end_size v) ≤ stop) }
    ensures { result ≡ second_at v file.now spans.now stop first at }
{
    if is_right(file, spans, v, at, stop) {
        let n = end_size(v);
        if at + (1 + n) == stop {
            return same_run(file, first + 1, at + 1, n);
        }
    }
    false
}

// Who ended the game: 255 is nobody.
pub fn initiator_in(file: &[u8], at: usize, v: Version) -> u8
    requires { at + end_size v ≤ length file.now }
    ensures { result ≡ initiator_in v (part file.now at (end_size v)) }
{
    if v.has_initiator() {
        return file[at + 1];
    }
    255
}

// Whether a placement is one, and which: 255 is none.
fn mark(b: u8) -> u8
    ensures { result ≡ mark_by b }
{
    if b == 255 {
        return 0;
    }
    1
}

fn value(b: u8) -> u8
    ensures { result ≡ value_by b }
{
    if b == 255 {
        return 0;
    }
    b
}

// What each byte of the placements says, where the version has them.
fn of_four<F: Fn(u8) -> u8>(file: &[u8], at: usize, v: Version, one: F) -> [u8; 4]
    requires { (at + end_size v ≤ length file.now) × F.IsAlwaysCallable one }
    ensures { (f : ℕ → ℕ)
        → ((x y : ℕ) → F.post one x y → y ≡ f x)
        → result ≡ cond (has_placements v) (of_four f (part file.now at (end_size v))) four_zeros }
{
    if v.has_placements() {
        return [
            one(file[at + 2]),
            one(file[at + 3]),
            one(file[at + 4]),
            one(file[at + 5]),
        ];
    }
    [0u8; 4]
}

// Who was placed, as marks: 255 is none.
pub fn placed_in(file: &[u8], at: usize, v: Version) -> [u8; 4]
    requires { at + end_size v ≤ length file.now }
    ensures { result ≡ placed_in v (part file.now at (end_size v)) }
{
    of_four(
        file,
        at,
        v,
        |b|
            ensures { result ≡ mark_by b }
        { mark(b) },
    )
}

// And where.
pub fn placements_in(file: &[u8], at: usize, v: Version) -> [u8; 4]
    requires { at + end_size v ≤ length file.now }
    ensures { result ≡ placements_in v (part file.now at (end_size v)) }
{
    of_four(
        file,
        at,
        v,
        |b|
            ensures { result ≡ value_by b }
        { value(b) },
    )
}
