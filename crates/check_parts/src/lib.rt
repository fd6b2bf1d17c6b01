// Whether the parts of a file's event data are those of a sound replay, each in one pass: the start block's length, the blocks of codes, the payload
// table, the frames with ports in any order, and at most two ends.
#![tactic(auto)]

ghost use Rattle.std.specs.Prelude.{◌≡◌, ◌≤◌, ◌<◌, length};
ghost use Rattle.read_outline.specs.Inner.{Within};
ghost use Rattle.check_parts.specs.Inner.{tabled_at, frames_at, coded_at, sound_at};

use check_table::is_table;
use end::ends_fill;
use format::version::Version;
use read_order::due::PortOrder;
use read_outline::answer::Codes;
use read_scan::Ran;
use start::length::block_length;

pub mod end;

// Whether the payload table is the version's, with codes listed, or without where there are no blocks.
fn is_tabled(file: &[u8], v: Version, len: usize, blocks: usize, actual: usize) -> bool
    requires { (15 ≤ length file.now) × (len < 65536) }
    ensures { result ≡ tabled_at v file.now len blocks actual }
{
    if is_table(file, v, len, true, actual) {
        return true;
    }
    if blocks == 0 {
        return is_table(file, v, len, false, actual);
    }
    false
}

// Whether frames in order stand from a place on, and at most two ends behind them.
fn are_frames(file: &[u8], spans: &[u32], v: Version, place: usize, stop: usize) -> bool
    requires { Within file.now spans.now stop place }
    ensures { result ≡ frames_at v file.now spans.now stop place }
{
    let ran = read_scan::frames(file, spans, v, PortOrder::Anyhow, place, stop);
    match ran {
        Ran::Ended { at, tally: _ } => ends_fill(file, spans, v, at, stop),
        Ran::Wrong => false,
    }
}

// Whether blocks of codes stand from a place on that the table lists, and frames behind them.
fn are_codes(file: &[u8], spans: &[u32], v: Version, at: usize, stop: usize, len: usize) -> bool
    requires { Within file.now spans.now stop at × (15 ≤ length file.now) × (len < 65536) }
    ensures { result ≡ coded_at v file.now spans.now stop at len }
{
    let c = read_outline::codes(file, spans, v, at, stop);
    match c {
        Codes::Ended {
            at: place,
            blocks,
            actual,
        } => {
            if is_tabled(file, v, len, blocks, actual) {
                return are_frames(file, spans, v, place, stop);
            }
            false
        }
        Codes::Wrong => false,
    }
}

// Whether all this stands behind a start block of `len` bytes that ends at a place.
pub fn is_sound(file: &[u8], spans: &[u32], v: Version, at: usize, stop: usize, len: usize) -> bool
    requires { Within file.now spans.now stop at × (15 ≤ length file.now) }
    ensures { result ≡ sound_at v file.now spans.now stop at len }
{
    if block_length(v) <= len {
        if len < 65536 {
            return are_codes(file, spans, v, at, stop, len);
        }
    }
    false
}
