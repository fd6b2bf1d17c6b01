// The file's parts, written one after the other.
ghost use Rattle.std.specs.Prelude.{◌≡◌, Bool, true, ◌++◌, ◌*◌, ◌<◌, length};
ghost use Rattle.wire.specs.Wire.{Room, Wrote};
ghost use Rattle.format.specs.Mark.{yes};
ghost use Rattle.players.specs.Inner.{Slotted};
ghost use Rattle.game.specs.Held.{lent_in};
ghost use Rattle.codes.specs.Blocks.{block_count};
ghost use Rattle.events.specs.Inner.{Framed};
ghost use Rattle.ser.specs.Inner.{front_bytes, rest_bytes};

use super::judge::is_given;
use format::event::Event;
use format::version::Version;
use game::Game;
use game::stores::Lent;
use layout::payloads::put_table;
use players::slots::Slots;

// The signature, the length, the payload table and GameStart's code. The start itself is written by the caller, from where
// the game lies: a start by value here would be one more copy of it.
pub fn put_front(
    out: &mut [u8],
    at: usize,
    v: Version,
    codes_given: u8,
    actual: u32,
    block: usize,
    raw: u32,
) -> usize
    requires { (block < 65536) × Room out.old at (front_bytes v codes_given actual block raw) }
    ensures { Wrote out.old out.new at result (front_bytes v codes_given actual block raw) }
{
    let mut p = format::event::put_signature(out, at);
    p = wire::put_u32(out, p, raw);
    p = put_table(out, p, v, block, is_given(codes_given), actual);
    wire::put_u8(out, p, Event::GameStart.code())
}

// The code blocks, the frames, the ends and the tail.
pub fn put_rest(
    out: &mut [u8],
    at: usize,
    g: Game,
    s: Slots,
    lent: &Lent<'_>,
    codes: &[u8],
    metadata: &[u8],
) -> usize
    requires { (yes g.codes_given ≡ true → length codes.now ≡ 512 * block_count g.actual_size)
        × Framed g.frames (lent_in lent.now)
        × Slotted g.frames s
        × Room out.old at (rest_bytes g (lent_in lent.now) codes.now metadata.now) }
    ensures { Wrote out.old out.new at result (rest_bytes g (lent_in lent.now) codes.now metadata.now) }
{
    let f = g.frames;
    let end = g.end;
    let mut p = codes::blocks::put_codes(out, at, is_given(g.codes_given), codes, g.actual_size);
    p = events::frame::put_frames(out, p, f, s, 0, f.counts.frames, lent);
    p = ending::end::put_ends(out, p, f.version, end, g.double_end);
    ending::tail::put_tail(out, p, is_given(g.metadata_given), metadata)
}
