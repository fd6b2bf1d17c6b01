// What stands round the frames of a replay: blocks of codes before them, ends after them.
#![tactic(auto)]

ghost use Rattle.std.specs.Prelude.{◌≡◌, suc, ◌+◌, ◌*◌, ◌≤◌, length, get_or};
ghost use Rattle.wire.specs.Wire.{splice, part, ranged};
ghost use Rattle.format.specs.Event.{code_of};
ghost use Rattle.format.specs.declared.event.Event.TheVariants.{GeckoCodes};
ghost use Rattle.layout.specs.Payloads.{end_size};
ghost use Rattle.read_outline.specs.End.{end_in};
ghost use Rattle.read_outline.specs.Listed.{listed_right};
ghost use Rattle.read_outline.specs.Inner.{Within, blocks_from, codes_at, ends_at};

pub mod answer;
pub mod block;
pub mod end;

use answer::{Codes, Ends};
use block::{is_full, last_block};
use end::{initiator_in, is_right, is_second, placed_in, placements_in};
use format::event::MESSAGE_SPLITTER;
use format::version::Version;
use game::end::End;
use layout::payloads::end_size;

// Blocks up to the last one, of which there is one at least. How many they are is only known behind the last of them.
fn blocks(file: &[u8], spans: &[u32], v: Version, first: usize, stop: usize) -> Codes
    requires { Within file.now spans.now stop first }
    ensures { result ≡ blocks_from v file.now spans.now stop (suc stop) first 0 }
{
    let mut at = first;
    let mut n: usize = 0;
    while is_full(file, spans, at, stop) {
        at += 517;
        n += 1;
    }
    last_block(file, spans, v, at, stop, n)
}

// The blocks of codes from a place on: none, or blocks up to the one whose flag is 1. Spans are by code: one more than the payloads' sizes, 0 where the table lacks the code.
pub fn codes(file: &[u8], spans: &[u32], v: Version, first: usize, stop: usize) -> Codes
    requires { (first ≤ stop) × (stop ≤ length file.now) × (length spans.now ≡ 256) }
    ensures { result ≡ codes_at v file.now spans.now first stop }
{
    if first < stop {
        if file[first] == MESSAGE_SPLITTER {
            return blocks(file, spans, v, first, stop);
        }
    }
    Codes::Ended {
        at: first,
        blocks: 0,
        actual: 0,
    }
}

// The bytes of the blocks, one block after another.
pub fn copy_codes(file: &[u8], first: usize, blocks: usize, codes: &mut [u8])
    requires { (first + 517 * blocks ≤ length file.now) × (512 * blocks ≤ length codes.old) }
    ensures { codes.new ≡ splice codes.old 0 (ranged (λ b. part file.now (first + 517 * b + 1) 512) 0 blocks) }
{
    let mut p: usize = 0;
    for b in 0..blocks {
        let from = first + 517 * b + 1;
        p = wire::put_bytes(codes, p, &file[from..from + 512]);
    }
}

// At most two ends that are alike fill what is left of the event data.
pub fn ends(file: &[u8], spans: &[u32], v: Version, first: usize, stop: usize) -> Ends
    requires { (first ≤ stop) × (stop ≤ length file.now) × (length spans.now ≡ 256) }
    ensures { result ≡ ends_at v file.now spans.now first stop }
{
    if first == stop {
        return Ends::Good { count: 0 };
    }
    if is_right(file, spans, v, first, stop) {
        let next = first + (1 + end_size(v));
        if next == stop {
            return Ends::Good { count: 1 };
        }
        if is_second(file, spans, v, first, next, stop) {
            return Ends::Good { count: 2 };
        }
    }
    Ends::Wrong
}

// What an end says whose payload stands at a place.
pub fn end_in(file: &[u8], at: usize, v: Version) -> End
    requires { at + end_size v ≤ length file.now }
    ensures { result ≡ end_in v (part file.now at (end_size v)) }
{
    End {
        given: 1,
        method: file[at],
        initiator: initiator_in(file, at, v),
        placed: placed_in(file, at, v),
        placements: placements_in(file, at, v),
    }
}

// Whether codes are listed as the blocks say: from 3.3 their size is the actual size's two low bytes, and unlisted there are no blocks.
pub fn listed_right(spans: &[u32], v: Version, blocks: usize, actual: usize) -> bool
    requires { length spans.now ≡ 256 }
    ensures { result ≡ listed_right v (get_or spans.now (code_of GeckoCodes) 0) blocks actual }
{
    if v.has_codes() {
        let span = spans[0x3D] as usize;
        if span == 0 {
            return blocks == 0;
        }
        return span == 1 + actual % 65536;
    }
    blocks == 0
}
