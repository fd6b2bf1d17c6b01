// The blocks of codes of a newer recorder's file: events one at a time by the file's own table, unknown ones passed over, and longer blocks read from the front.
#![tactic(auto)]

ghost use Rattle.std.specs.Prelude.{◌≡◌, true, List, ◌*◌, ◌≤◌, ◌<◌, length, get_or};
ghost use Rattle.wire.specs.Wire.{splice};
ghost use Rattle.format.specs.Event.{code_of};
ghost use Rattle.format.specs.File.{Ev};
ghost use Rattle.format.specs.declared.event.Event.TheVariants.{MessageSplitter};
ghost use Rattle.format.specs.declared.version.Version.{Version};
ghost use Rattle.grammar.specs.Productions.{Block, codes_bytes};
ghost use Rattle.read_judge.specs.Inner.{Covers};
ghost use Rattle.known.specs.Known.{is_newer};
ghost use Rattle.newer_events.specs.Some.{SomeCovers};
ghost use Rattle.newer_codes.specs.Places.{Laid};
ghost use Rattle.newer_codes.specs.Codes.{CodesRead, BlocksLie, SomeBlocks};

pub mod block;
pub mod next;

use block::{is_full, last_block};
use format::event::MESSAGE_SPLITTER;
use next::next_known;
use read_outline::answer::Codes;
use read_scan::event::span_of;

// Blocks up to the last one, of which there is one at least.
fn blocks(file: &[u8], spans: &[u32], first: usize, stop: usize) -> Codes
    requires { Laid file.now spans.now first stop × (first < stop) × (get_or file.now first 0 ≡ code_of MessageSplitter) }
    ensures { (v : Version) (raw : List Ev) → is_newer v ≡ true → Covers file.now spans.now first stop raw → CodesRead v first raw result }
{
    let mut at = first;
    let mut n: usize = 0;
    while is_full(file, spans, at, stop) {
        at = next_known(file, spans, at + span_of(spans, MESSAGE_SPLITTER), stop);
        n += 1;
    }
    last_block(file, spans, at, stop, n)
}

// The blocks of codes from a place on: none, or blocks up to the one whose flag is 1. All newer versions have the same.
pub fn codes(file: &[u8], spans: &[u32], first: usize, stop: usize) -> Codes
    requires { (length spans.now ≡ 256) × (stop ≤ length file.now) × SomeCovers file.now spans.now first stop }
    ensures { (v : Version) (raw : List Ev) → is_newer v ≡ true → Covers file.now spans.now first stop raw → CodesRead v first raw result }
{
    let at = next_known(file, spans, first, stop);
    if at < stop {
        if file[at] == MESSAGE_SPLITTER {
            return blocks(file, spans, at, stop);
        }
    }
    Codes::Ended {
        at,
        blocks: 0,
        actual: 0,
    }
}

// The bytes of the blocks, one block after another.
pub fn copy_codes(
    file: &[u8],
    spans: &[u32],
    first: usize,
    stop: usize,
    blocks: usize,
    codes: &mut [u8],
)
    requires { (length spans.now ≡ 256) × (stop ≤ length file.now) × SomeBlocks file.now spans.now first stop blocks × (512 * blocks ≤ length codes.old) }
    ensures { (bs : List Block) → BlocksLie file.now spans.now first stop bs → blocks ≡ length bs
        → codes.new ≡ splice codes.old 0 (codes_bytes bs) }
{
    let mut at = first;
    let mut p: usize = 0;
    let mut b: usize = 0;
    while b < blocks {
        at = next_known(file, spans, at, stop);
        let from = at + 1;
        p = wire::put_bytes(codes, p, &file[from..from + 512]);
        at += span_of(spans, MESSAGE_SPLITTER);
        b += 1;
    }
}
