// Which start blocks and which starts are refused.
ghost use Rattle.std.specs.Prelude.{◌≡◌, map, take};
ghost use Rattle.patch.specs.Field.{is_zero};
ghost use Rattle.format.specs.Refusal.{one_of};
ghost use Rattle.start.specs.Refusal.{block_wrong, missing, too_long, holds_zero, field_missing, cpu_without_level, text_too_long, text_holds_zero, bad_seat, bad_start};

use super::gate::Gate;
use super::length::block_length;
use format::version::Version;
use game::start::{Seat, Start, Text};

// Refusal 8, of a block of so many bytes.
pub fn block_wrong(v: Version, len: usize) -> bool
    ensures { result ≡ block_wrong v len }
{
    if len < block_length(v) {
        return true;
    }
    65535 < len
}

// Whether a field that v writes is missing, as its mark says.
fn is_missing(v: Version, g: Gate, mark: u8) -> bool
    ensures { result ≡ missing v g mark }
{
    if g.reached(v) {
        return mark == 0;
    }
    false
}

// Whether a text that v writes has more bytes than its limit.
fn is_too_long(v: Version, g: Gate, limit: usize, t: Text) -> bool
    ensures { result ≡ too_long v g limit t }
{
    if g.reached(v) {
        return limit < t.len;
    }
    false
}

// Whether one of the bytes is zero.
fn has_zero(bytes: &[u8]) -> bool
    ensures { result ≡ one_of (map is_zero bytes.now) }
{
    bytes.contains(&0)
}

// Whether one of the first n bytes is zero, or of all where there are fewer.
fn counts_zero(bytes: &[u8], n: usize) -> bool
    ensures { result ≡ one_of (map is_zero (take n bytes.now)) }
{
    if bytes.len() < n {
        return has_zero(bytes);
    }
    has_zero(&bytes[..n])
}

// Whether a text that v writes has a zero byte among its counted bytes.
fn holds_zero(v: Version, g: Gate, t: Text) -> bool
    ensures { result ≡ holds_zero v g t }
{
    if g.reached(v) {
        return counts_zero(&t.bytes, t.len);
    }
    false
}

fn lacks_field(v: Version, p: Seat) -> bool
    ensures { result ≡ field_missing v p }
{
    if is_missing(v, Gate::UCF, p.ucf.given) {
        return true;
    }
    if is_missing(v, Gate::TAG, p.name_tag_given) {
        return true;
    }
    if is_missing(v, Gate::NETPLAY, p.netplay.given) {
        return true;
    }
    is_missing(v, Gate::SUID, p.netplay.suid_given)
}

fn lacks_level(p: Seat) -> bool
    ensures { result ≡ cpu_without_level p }
{
    if p.kind == 1 {
        return p.cpu_level.given == 0;
    }
    false
}

fn has_long_text(v: Version, p: Seat) -> bool
    ensures { result ≡ text_too_long v p }
{
    let netplay = p.netplay;
    if is_too_long(v, Gate::TAG, 16, p.name_tag) {
        return true;
    }
    if is_too_long(v, Gate::NETPLAY, 30, netplay.name) {
        return true;
    }
    if is_too_long(v, Gate::NETPLAY, 9, netplay.code) {
        return true;
    }
    is_too_long(v, Gate::SUID, 28, netplay.suid)
}

fn has_text_with_zero(v: Version, p: Seat) -> bool
    ensures { result ≡ text_holds_zero v p }
{
    let netplay = p.netplay;
    if holds_zero(v, Gate::TAG, p.name_tag) {
        return true;
    }
    if holds_zero(v, Gate::NETPLAY, netplay.name) {
        return true;
    }
    if holds_zero(v, Gate::NETPLAY, netplay.code) {
        return true;
    }
    holds_zero(v, Gate::SUID, netplay.suid)
}

fn is_bad_seat(v: Version, p: Seat) -> bool
    ensures { result ≡ bad_seat v p }
{
    if p.given == 0 {
        return false;
    }
    if lacks_field(v, p) {
        return true;
    }
    if 2 < p.kind {
        return true;
    }
    if lacks_level(p) {
        return true;
    }
    if has_long_text(v, p) {
        return true;
    }
    has_text_with_zero(v, p)
}

// A seat at a time, and no loop: a loop is compiled to code that takes all four seats apart and keeps the parts.
fn has_bad_seat(v: Version, seats: [Seat; 4]) -> bool
    ensures { result ≡ one_of (map (bad_seat v) seats) }
{
    let a = seats[0];
    if is_bad_seat(v, a) {
        return true;
    }
    let b = seats[1];
    if is_bad_seat(v, b) {
        return true;
    }
    let c = seats[2];
    if is_bad_seat(v, c) {
        return true;
    }
    let d = seats[3];
    if is_bad_seat(v, d) {
        return true;
    }
    false
}

// Refusal 9: a field that v writes is missing, a player type is above 2, a CPU has no level, or a text
// that v writes is too long or has a zero inside.
pub fn is_bad_start(v: Version, s: Start) -> bool
    ensures { result ≡ bad_start v s }
{
    let seats = s.seats;
    let game = s.match_info;
    if has_bad_seat(v, seats) {
        return true;
    }
    if is_missing(v, Gate::PAL, s.is_pal.given) {
        return true;
    }
    if is_missing(v, Gate::FROZEN, s.is_frozen_ps.given) {
        return true;
    }
    if is_missing(v, Gate::SCENE, s.scene.given) {
        return true;
    }
    if is_missing(v, Gate::LANGUAGE, s.language.given) {
        return true;
    }
    if is_missing(v, Gate::MATCH, s.match_info.given) {
        return true;
    }
    if is_too_long(v, Gate::MATCH, 50, game.id) {
        return true;
    }
    holds_zero(v, Gate::MATCH, game.id)
}
