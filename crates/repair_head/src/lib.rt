// The head of a file whose length field is not looked at: it is read from a copy, in which the length was never filled in.
#![tactic(auto)]

ghost use Rattle.std.specs.Prelude.{◌≡◌, ◌≤◌, length};
ghost use Rattle.head.specs.Inner.{Blank, HeadOf};
ghost use Rattle.de.specs.Cut.{zeroed};
ghost use Rattle.repair_head.specs.Inner.{TopOf, Ready};

use format::refusal::NOT_A_REPLAY;
use head::table::Head;

// The refusal of a head, or 0 and where its events start.
#[derive(Clone, Copy)]
pub struct Top {
    pub refusal: u8,
    pub first: usize,
}

// A copy of a file, with a length of zero.
fn put_zeroed(room: &mut [u8], file: &[u8])
    requires { (length room.old ≡ length file.now) × (15 ≤ length file.now) }
    ensures { room.new ≡ zeroed file.now }
{
    let end = wire::put_bytes(room, 0, file);
    let behind = wire::put_u32(room, 11, 0);
}

// The head of that copy.
fn parse_zeroed(room: &mut [u8], file: &[u8], spans: &mut [u32]) -> Head
    requires { Ready room.old file.now spans.old }
    ensures { HeadOf result spans.new (zeroed file.now) }
{
    put_zeroed(room, file);
    head::table::parse_head(room, spans)
}

// The head of a file that has one, copied into 271 bytes: no table ends behind them.
fn open_in(room: &mut [u8], file: &[u8], spans: &mut [u32]) -> Top
    requires { (length room.old ≡ 271) × (15 ≤ length file.now) × Blank spans.old }
    ensures { TopOf result spans.new file.now }
{
    if file.len() < 271 {
        let n = file.len();
        let h = parse_zeroed(&mut room[..n], file, spans);
        return Top {
            refusal: h.refusal,
            first: h.first,
        };
    }
    let h = parse_zeroed(room, &file[..271], spans);
    Top {
        refusal: h.refusal,
        first: h.first,
    }
}

// The head of any file.
pub fn open_head(file: &[u8], spans: &mut [u32]) -> Top
    requires { Blank spans.old }
    ensures { TopOf result spans.new file.now }
{
    if file.len() < 15 {
        return Top {
            refusal: NOT_A_REPLAY,
            first: 0,
        };
    }
    let mut room = [0u8; 271];
    open_in(&mut room, file, spans)
}
