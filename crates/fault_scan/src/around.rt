// Blocks of codes before frames, and ends behind them.
ghost use Rattle.std.specs.Prelude.{◌≡◌, true, not, ◌||◌, ◌&&◌, ◌+◌, ◌*◌, ◌^◌, ◌≤◌, ◌<◌, eqb, length, get_or};
ghost use Rattle.format.specs.Event.{code_of};
ghost use Rattle.format.specs.declared.event.Event.TheVariants.{GeckoCodes, MessageSplitter};
ghost use Rattle.layout.specs.Payloads.{end_size};
ghost use Rattle.grammar.specs.Whole.{flag_in, used_by, is_end};
ghost use Rattle.read_order.specs.Inner.{state_in, closed_at};
ghost use Rattle.read_outline.specs.Listed.{listed_right};
ghost use Rattle.fault_reason.specs.Fault.{initiator_fits, alike_bytes, takes_block};
ghost use Rattle.fault_reason.specs.Inner.{ev};
ghost use Rattle.fault_scan.specs.Inner.{Blocked, FirstEnd, SecondEnd};

use fault_reason::around::{block_reason, end_reason, is_good, second_reason};
use fault_reason::rows::byte_at;
use format::event::{GAME_END, GECKO_CODES};
use format::version::Version;
use layout::payloads::end_size;
use read_order::stage::{Stage, is_closed};
use read_outline::listed_right;
use read_scan::event::span_of;

// A block that others follow, the last one, or a wrong one.
#[derive(Clone, Copy)]
pub enum Block {
    Full,
    Last,
    Wrong { reason: u8 },
}

// An end may come, or not.
#[derive(Clone, Copy)]
pub enum Closing {
    Comes,
    Wrong { reason: u8 },
}

// Whether a good block is not the last, or the table lists codes as the blocks say.
fn is_listed(p: &[u8], spans: &[u32], v: Version, n: usize) -> bool
    requires { (length p.now ≡ 516) × (length spans.now ≡ 256) × (512 * n < 2 ^ 63) × (used_by (ev (code_of MessageSplitter) p.now) ≤ 512) }
    ensures { result ≡ (not (eqb (flag_in (ev (code_of MessageSplitter) p.now)) 1)
        || listed_right v (get_or spans.now (code_of GeckoCodes) 0) (n + 1) (512 * n + used_by (ev (code_of MessageSplitter) p.now))) }
{
    if p[515] == 1 {
        let used = wire::get_be(p, 512, 2) as usize;
        return listed_right(spans, v, n + 1, 512 * n + used);
    }
    true
}

// Whether a block may come after n full ones.
fn takes_block(p: &[u8], spans: &[u32], v: Version, n: usize) -> bool
    requires { (length spans.now ≡ 256) × (512 * n < 2 ^ 63) }
    ensures { (result ≡ takes_block v (get_or spans.now (code_of GeckoCodes) 0) n (ev (code_of MessageSplitter) p.now))
        × (result ≡ true → length p.now ≡ 516) }
{
    if v.has_codes() {
        if span_of(spans, GECKO_CODES) != 0 {
            if is_good(p, v) {
                return is_listed(p, spans, v, n);
            }
        }
    }
    false
}

// A block after n full ones.
pub fn block_turn(p: &[u8], spans: &[u32], v: Version, n: usize) -> Block
    requires { (length spans.now ≡ 256) × (512 * n < 2 ^ 63) }
    ensures { Blocked v (get_or spans.now (code_of GeckoCodes) 0) n (ev (code_of MessageSplitter) p.now) result }
{
    if takes_block(p, spans, v, n) {
        if p[515] == 1 {
            return Block::Last;
        }
        return Block::Full;
    }
    let reason = block_reason(p, v, span_of(spans, GECKO_CODES));
    Block::Wrong { reason }
}

// Whether an event is an end of the version's size.
fn is_end(p: &[u8], v: Version, code: u8) -> bool
    ensures { (result ≡ is_end v (ev code p.now)) × (result ≡ true → length p.now ≡ end_size v) }
{
    if code == GAME_END {
        let n = end_size(v);
        return p.len() == n;
    }
    false
}

// Whether it names an initiator from -1 to 3, where the version names one.
fn initiator_fits(p: &[u8], v: Version, code: u8) -> bool
    ensures { result ≡ initiator_fits v (ev code p.now) }
{
    if v.has_initiator() {
        let initiator = byte_at(p, 1);
        if initiator <= 3 {
            return true;
        }
        return initiator == 255;
    }
    true
}

// Whether the first end may come: no frame is open.
fn may_end(p: &[u8], v: Version, m: Stage, code: u8) -> bool
    ensures { (result ≡ (closed_at v m && (is_end v (ev code p.now) && initiator_fits v (ev code p.now))))
        × (result ≡ true → length p.now ≡ end_size v) }
{
    if is_closed(v, m) {
        if is_end(p, v, code) {
            return initiator_fits(p, v, code);
        }
    }
    false
}

// The first end.
pub fn first_end(file: &[u8], p: &[u8], v: Version, span: usize, m: Stage, code: u8) -> Closing
    ensures { FirstEnd v (state_in file.now span m) (ev code p.now) result }
{
    if may_end(p, v, m, code) {
        return Closing::Comes;
    }
    let reason = end_reason(file, p, v, span, m, code);
    Closing::Wrong { reason }
}

// Whether two lists of bytes are the same.
fn is_same(a: &[u8], b: &[u8]) -> bool
    ensures { result ≡ alike_bytes a.now b.now }
{
    if a.len() != b.len() {
        return false;
    }
    let mut i = 0;
    while i < a.len() {
        if a[i] != b[i] {
            return false;
        }
        i += 1;
    }
    true
}

// Whether an end like the first may come.
fn may_repeat(first: &[u8], p: &[u8], v: Version, code: u8) -> bool
    ensures { result ≡ (is_end v (ev code p.now) && alike_bytes first.now p.now) }
{
    if is_end(p, v, code) {
        return is_same(first, p);
    }
    false
}

// The second end.
pub fn second_end(first: &[u8], p: &[u8], v: Version, code: u8) -> Closing
    ensures { SecondEnd v first.now (ev code p.now) result }
{
    if may_repeat(first, p, v, code) {
        return Closing::Comes;
    }
    let reason = second_reason(p, v, code);
    Closing::Wrong { reason }
}
