// Gecko codes, in blocks of 512 bytes.
ghost use Rattle.std.specs.Prelude.{◌≡◌, true, ◌*◌, ◌<◌, ◌≤◌, length};
ghost use Rattle.wire.specs.Wire.{Room, Wrote};
ghost use Rattle.format.specs.File.{event_bytes, events_bytes};
ghost use Rattle.codes.specs.Blocks.{block_count, used, last_flag, block_end, code_block, code_blocks, code_events, codes_wrong};

use format::event::Event;
use format::version::Version;

// How many blocks codes of `actual` bytes take.
fn block_count(actual: u32) -> usize
    ensures { (result ≡ block_count actual) × (result ≤ 8388608) }
{
    (actual as usize + 511) / 512
}

// How many bytes codes of `actual` bytes are padded to.
pub fn padded(actual: u32) -> usize
    ensures { result ≡ 512 * block_count actual }
{
    512 * block_count(actual)
}

// Refusal 10. Bytes that are not marked as given are ignored: the mark and the bytes stand apart, as the C interface lends them.
pub fn codes_wrong(v: Version, given: bool, codes: &[u8], actual: u32) -> bool
    ensures { result ≡ codes_wrong v given codes.now actual }
{
    if given {
        if v.has_codes() {
            return codes.len() != padded(actual);
        }
        return true;
    }
    false
}

// How many bytes of block b are codes and not padding.
fn used_bytes(actual: u32, b: usize) -> u32
    requires { b < block_count actual }
    ensures { result ≡ used actual b }
{
    let rest = actual as usize - 512 * b;
    rest.min(512) as u32
}

// 1 for the last block, else 0.
fn last_flag(actual: u32, b: usize) -> u8
    requires { b < block_count actual }
    ensures { result ≡ last_flag actual b }
{
    (b + 1 == block_count(actual)) as u8
}

// What follows a block's 512 bytes.
fn put_block_end(out: &mut [u8], at: usize, actual: u32, b: usize) -> usize
    requires { (b < block_count actual) × Room out.old at (block_end actual b) }
    ensures { Wrote out.old out.new at result (block_end actual b) }
{
    let mut p = wire::put_u16(out, at, used_bytes(actual, b));
    p = wire::put_u8(out, p, Event::GeckoCodes.code());
    wire::put_u8(out, p, last_flag(actual, b))
}

// Block b, as an event.
fn put_block(out: &mut [u8], at: usize, codes: &[u8], actual: u32, b: usize) -> usize
    requires { (b < block_count actual)
        × (length codes.now ≡ 512 * block_count actual)
        × Room out.old at (event_bytes (code_block codes.now actual b)) }
    ensures { Wrote out.old out.new at result (event_bytes (code_block codes.now actual b)) }
{
    let from = 512 * b;
    let to = from + 512;
    let mut p = wire::put_u8(out, at, Event::MessageSplitter.code());
    p = wire::put_bytes(out, p, &codes[from..to]);
    put_block_end(out, p, actual, b)
}

// All blocks.
fn put_blocks(out: &mut [u8], at: usize, codes: &[u8], actual: u32) -> usize
    requires { (length codes.now ≡ 512 * block_count actual) × Room out.old at (events_bytes (code_blocks codes.now actual)) }
    ensures { Wrote out.old out.new at result (events_bytes (code_blocks codes.now actual)) }
{
    let n = block_count(actual);
    let mut p = at;
    for b in 0..n {
        p = put_block(out, p, codes, actual, b);
    }
    p
}

// The blocks of codes that are given. The codes come padded to whole blocks.
pub fn put_codes(out: &mut [u8], at: usize, given: bool, codes: &[u8], actual: u32) -> usize
    requires { (given ≡ true → length codes.now ≡ 512 * block_count actual)
        × Room out.old at (events_bytes (code_events given codes.now actual)) }
    ensures { Wrote out.old out.new at result (events_bytes (code_events given codes.now actual)) }
{
    if given {
        return put_blocks(out, at, codes, actual);
    }
    at
}
