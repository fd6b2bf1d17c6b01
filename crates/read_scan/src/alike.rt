// Whether the frame before a place comes eight times more: the same codes and players at the same places, each event with its own frame's id.
ghost use Rattle.std.specs.Prelude.{◌≡◌, true, ◌+◌, ◌*◌, ◌≤◌, ◌<◌, length};
ghost use Rattle.read_order.specs.Inner.{closed_at};
ghost use Rattle.read_scan.specs.Alike.{Four, Two, Starts, Heads, Seats, Likes, Rest, Eight};

use crate::event::span_of;
use format::event::{FRAME_END, FRAME_POST, FRAME_PRE, FRAME_START};
use format::version::Version;
use read_order::stage::{Stage, is_closed};

// Four bytes as a number, and two. The lowest is first, so that each is one load: they are only compared.
fn four(s: &[u8], at: usize) -> u32
    requires { at + 4 ≤ length s.now }
    ensures { Four s.now at result }
{
    s[at] as u32
        + (s[at + 1] as u32) * 256
        + (s[at + 2] as u32) * 65536
        + (s[at + 3] as u32) * 16777216
}

fn two(s: &[u8], at: usize) -> u32
    requires { at + 2 ≤ length s.now }
    ensures { Two s.now at result }
{
    s[at] as u32 + (s[at + 1] as u32) * 256
}

// Whether eight frames begin as one does, each a step after the one before it.
fn starts_alike(file: &[u8], last: usize, step: usize) -> bool
    requires { last + (8 * step + 7) ≤ length file.now }
    ensures { result ≡ true → Starts file.now last step 8 }
{
    let code = file[last];
    let mut p = last;
    for _ in 0..8usize {
        p += step;
        if file[p] != code {
            return false;
        }
    }
    true
}

// Whether the event at e comes in all of them, with the ids of their frames.
fn heads_alike(file: &[u8], last: usize, e: usize, step: usize) -> bool
    requires { (last + (8 * step + 7) ≤ length file.now) × (e + (8 * step + 7) ≤ length file.now) }
    ensures { result ≡ true → Heads file.now last e step 8 }
{
    let code = file[e];
    let mut p = e;
    let mut q = last;
    for _ in 0..8usize {
        p += step;
        q += step;
        if file[p] != code {
            return false;
        }
        if four(file, p + 1) != four(file, q + 1) {
            return false;
        }
    }
    true
}

// Whether those are of the player that the one at e says.
fn seats_alike(file: &[u8], e: usize, step: usize) -> bool
    requires { e + (8 * step + 7) ≤ length file.now }
    ensures { result ≡ true → Seats file.now e step 8 }
{
    let seat = two(file, e + 5);
    let mut p = e;
    for _ in 0..8usize {
        p += step;
        if two(file, p + 5) != seat {
            return false;
        }
    }
    true
}

// Whether the event at e, a player's or the frame's end, comes so in eight frames.
fn event_alike(file: &[u8], last: usize, e: usize, step: usize) -> bool
    requires { (last + (8 * step + 7) ≤ length file.now) × (e + (8 * step + 7) ≤ length file.now) }
    ensures { result ≡ true → Likes file.now last e step }
{
    if heads_alike(file, last, e, step) {
        let code = file[e];
        if code == FRAME_END {
            return true;
        }
        if code == FRAME_PRE {
            return seats_alike(file, e, step);
        }
        if code == FRAME_POST {
            return seats_alike(file, e, step);
        }
    }
    false
}

// Whether all events do that stand from `first` up to a place. How far each goes is read from it, so that they are no range.
fn rest_alike(file: &[u8], spans: &[u32], last: usize, first: usize, at: usize, step: usize) -> bool
    requires { (last ≤ at) × (at + (8 * step + 7) ≤ length file.now) × (length spans.now ≡ 256) }
    ensures { result ≡ true → Rest file.now spans.now last first at step }
{
    let mut e = first;
    while e < at {
        let n = span_of(spans, file[e]);
        if n == 0 {
            return false;
        }
        if at - e < n {
            return false;
        }
        if !event_alike(file, last, e, step) {
            return false;
        }
        e += n;
    }
    true
}

// Whether eight steps, and the first bytes of an event more, are within a room.
fn eight_fit(step: usize, room: usize) -> bool
    ensures { result ≡ true → (0 < step) × (8 * step + 7 ≤ room) }
{
    if step == 0 {
        return false;
    }
    if room < 7 {
        return false;
    }
    step <= (room - 7) / 8
}

// Whether the frame from `last` up to a place comes eight times more.
fn eight_alike(file: &[u8], spans: &[u32], last: usize, at: usize, stop: usize) -> bool
    requires { (last ≤ at) × (at ≤ stop) × (stop ≤ length file.now) × (length spans.now ≡ 256) }
    ensures { result ≡ true → Eight file.now spans.now last at stop }
{
    let step = at - last;
    if eight_fit(step, stop - at) {
        let code = file[last];
        if code == FRAME_START {
            let n = span_of(spans, code);
            if n <= step {
                if starts_alike(file, last, step) {
                    return rest_alike(file, spans, last, last + n, at, step);
                }
            }
        }
    }
    false
}

// Whether eight frames like the last one begin where a frame stands, before an event of this code.
pub fn goes_on(
    file: &[u8],
    spans: &[u32],
    v: Version,
    m: Stage,
    code: u8,
    last: usize,
    at: usize,
    stop: usize,
) -> bool
    requires { (last ≤ at) × (at ≤ stop) × (stop ≤ length file.now) × (length spans.now ≡ 256) }
    ensures { result ≡ true → (closed_at v m ≡ true) × Eight file.now spans.now last at stop }
{
    if code == FRAME_START {
        if is_closed(v, m) {
            return eight_alike(file, spans, last, at, stop);
        }
    }
    false
}
