// One block of codes at a place.
ghost use Rattle.std.specs.Prelude.{◌≡◌, true, ◌+◌, ◌*◌, ◌≤◌};
ghost use Rattle.read_outline.specs.Inner.{Within, block_at, full_at, last_at, used_at, last_block};

use super::answer::Codes;
use format::event::{GECKO_CODES, MESSAGE_SPLITTER};
use format::version::Version;

// Whether a block stands whole before stop.
fn is_block(file: &[u8], spans: &[u32], at: usize, stop: usize) -> bool
    requires { Within file.now spans.now stop at }
    ensures { (result ≡ block_at file.now spans.now stop at) × (result ≡ true → at + 517 ≤ stop) }
{
    if stop - at < 517 {
        return false;
    }
    if file[at] != MESSAGE_SPLITTER {
        return false;
    }
    if spans[0x10] != 517 {
        return false;
    }
    file[at + 515] == GECKO_CODES
}

// Whether it is a block of 512 codes that others follow.
pub fn is_full(file: &[u8], spans: &[u32], at: usize, stop: usize) -> bool
    requires { Within file.now spans.now stop at }
    ensures { (result ≡ full_at file.now spans.now stop at) × (result ≡ true → at + 517 ≤ stop) }
{
    if is_block(file, spans, at, stop) {
        if file[at + 516] == 0 {
            return wire::get_be(file, at + 513, 2) == 512;
        }
    }
    false
}

// Whether it is the last block, with some codes.
fn is_last(file: &[u8], spans: &[u32], v: Version, at: usize, stop: usize) -> bool
    requires { Within file.now spans.now stop at }
    ensures { (result ≡ last_at v file.now spans.now stop at)
        × (result ≡ true → (at + 517 ≤ stop) × (used_at file.now at ≤ 512)) }
{
    if is_block(file, spans, at, stop) {
        if file[at + 516] == 1 {
            if v.has_codes() {
                let used = wire::get_be(file, at + 513, 2);
                if 0 < used {
                    return used <= 512;
                }
            }
        }
    }
    false
}

// The last block, after n full ones.
pub fn last_block(file: &[u8], spans: &[u32], v: Version, at: usize, stop: usize, n: usize) -> Codes
    requires { Within file.now spans.now stop at × (512 * n ≤ at) }
    ensures { result ≡ last_block v file.now spans.now stop at n }
{
    if is_last(file, spans, v, at, stop) {
        let used = wire::get_be(file, at + 513, 2) as usize;
        return Codes::Ended {
            at: at + 517,
            blocks: n + 1,
            actual: 512 * n + used,
        };
    }
    Codes::Wrong
}
