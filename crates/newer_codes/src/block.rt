// One block of codes at a place. What its payload has beyond 516 bytes is not read.
ghost use Rattle.std.specs.Prelude.{◌≡◌, true, ◌+◌, ◌*◌, ◌≤◌};
ghost use Rattle.read_outline.specs.Inner.{used_at};
ghost use Rattle.newer_codes.specs.Places.{Laid};
ghost use Rattle.newer_codes.specs.Codes.{block_span, block_at, full_at, last_at, last_block};

use format::event::{GECKO_CODES, MESSAGE_SPLITTER};
use read_outline::answer::Codes;
use read_scan::event::span_of;

// Whether a block stands at a place.
fn is_block(file: &[u8], spans: &[u32], at: usize, stop: usize) -> bool
    requires { Laid file.now spans.now at stop }
    ensures { (result ≡ block_at file.now spans.now stop at)
        × (result ≡ true → (517 ≤ block_span spans.now) × (at + block_span spans.now ≤ stop)) }
{
    if at < stop {
        if file[at] == MESSAGE_SPLITTER {
            if 517 <= span_of(spans, MESSAGE_SPLITTER) {
                return file[at + 515] == GECKO_CODES;
            }
        }
    }
    false
}

// Whether it is a block of 512 codes that others follow.
pub fn is_full(file: &[u8], spans: &[u32], at: usize, stop: usize) -> bool
    requires { Laid file.now spans.now at stop }
    ensures { (result ≡ full_at file.now spans.now stop at)
        × (result ≡ true → (517 ≤ block_span spans.now) × (at + block_span spans.now ≤ stop)) }
{
    if is_block(file, spans, at, stop) {
        if file[at + 516] == 0 {
            return wire::get_be(file, at + 513, 2) == 512;
        }
    }
    false
}

// Whether it is the last block, with some codes.
fn is_last(file: &[u8], spans: &[u32], at: usize, stop: usize) -> bool
    requires { Laid file.now spans.now at stop }
    ensures { (result ≡ last_at file.now spans.now stop at)
        × (result ≡ true → (517 ≤ block_span spans.now) × (at + block_span spans.now ≤ stop) × (used_at file.now at ≤ 512)) }
{
    if is_block(file, spans, at, stop) {
        if file[at + 516] == 1 {
            let used = wire::get_be(file, at + 513, 2);
            if 0 < used {
                return used <= 512;
            }
        }
    }
    false
}

// The last block, after n full ones.
pub fn last_block(file: &[u8], spans: &[u32], at: usize, stop: usize, n: usize) -> Codes
    requires { Laid file.now spans.now at stop × (512 * n ≤ at) }
    ensures { result ≡ last_block file.now spans.now stop at n }
{
    if is_last(file, spans, at, stop) {
        let used = wire::get_be(file, at + 513, 2) as usize;
        return Codes::Ended {
            at: at + span_of(spans, MESSAGE_SPLITTER),
            blocks: n + 1,
            actual: 512 * n + used,
        };
    }
    Codes::Wrong
}
