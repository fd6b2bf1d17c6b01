// Why an event cannot come that is none of a frame's.
ghost use Rattle.std.specs.Prelude.{◌≡◌, ◌≤◌, length, true};
ghost use Rattle.fault_reason.specs.Reason.{other_reason, good_block, block_reason, end_reason, second_reason, third_reason};
ghost use Rattle.read_order.specs.Inner.{state_in};
ghost use Rattle.grammar.specs.Whole.{is_block, used_by};
ghost use Rattle.fault_reason.specs.Inner.{ev};
ghost use Rattle.format.specs.Event.{code_of};
ghost use Rattle.format.specs.declared.event.Event.TheVariants.{MessageSplitter};

use crate::rows::open_reason;
use format::event::{GAME_END, GAME_START, GECKO_CODES, MESSAGE_SPLITTER};
use format::version::Version;
use layout::payloads::end_size;
use read_order::stage::{Stage, is_closed};
use read_scan::event::{Kind, kind_of};

// An event where none of its kind may stand.
pub fn other_reason(code: u8) -> u8
    ensures { result ≡ other_reason code }
{
    let k = kind_of(code);
    match k {
        Kind::Frame(_) => 1,
        Kind::Other => {
            if code == GAME_START {
                return 1;
            }
            if code == MESSAGE_SPLITTER {
                return 1;
            }
            if code == GAME_END {
                return 1;
            }
            22
        }
    }
}

// Whether a payload is a block's.
fn is_block(p: &[u8]) -> bool
    ensures { (result ≡ is_block (ev (code_of MessageSplitter) p.now)) × (result ≡ true → length p.now ≡ 516) }
{
    if p.len() == 516 {
        return p[514] == GECKO_CODES;
    }
    false
}

// Whether it is a full block that others follow, or a last one.
pub fn is_good(p: &[u8], v: Version) -> bool
    ensures { (result ≡ good_block v (ev (code_of MessageSplitter) p.now)) × (result ≡ true → (length p.now ≡ 516) × (used_by (ev (code_of MessageSplitter) p.now) ≤ 512)) }
{
    if is_block(p) {
        let used = wire::get_be(p, 512, 2);
        if p[515] == 1 {
            if v.has_codes() {
                if 0 < used {
                    return used <= 512;
                }
            }
            return false;
        }
        if p[515] == 0 {
            return used == 512;
        }
    }
    false
}

// A block of codes, where a code's events take so many bytes.
pub fn block_reason(p: &[u8], v: Version, listed: usize) -> u8
    ensures { result ≡ block_reason v listed (ev (code_of MessageSplitter) p.now) }
{
    if v.has_codes() {
        if p.len() == 516 {
            if listed == 0 {
                return 19;
            }
            if is_good(p, v) {
                return 19;
            }
            return 11;
        }
        return 2;
    }
    18
}

// An event behind frames that is none of a frame's.
pub fn end_reason(file: &[u8], p: &[u8], v: Version, span: usize, m: Stage, code: u8) -> u8
    ensures { result ≡ end_reason v (state_in file.now span m) (ev code p.now) }
{
    if code == GAME_END {
        let n = end_size(v);
        if p.len() == n {
            if is_closed(v, m) {
                return 10;
            }
            return open_reason(m);
        }
        return 2;
    }
    other_reason(code)
}

// An event behind an end.
pub fn second_reason(p: &[u8], v: Version, code: u8) -> u8
    ensures { result ≡ second_reason v (ev code p.now) }
{
    if code == GAME_END {
        let n = end_size(v);
        if p.len() == n {
            return 13;
        }
        return 2;
    }
    other_reason(code)
}

// An event behind two ends.
pub fn third_reason(p: &[u8], code: u8) -> u8
    ensures { result ≡ third_reason (ev code p.now) }
{
    if code == GAME_END {
        return 12;
    }
    other_reason(code)
}
