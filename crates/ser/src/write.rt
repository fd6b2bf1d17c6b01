// The public call: a game and its lent stores become a replay file in the output, or a refusal that touches nothing.
ghost use Rattle.std.specs.Prelude.{length};
ghost use Rattle.game.specs.Held.{stores_in};
ghost use Rattle.ser.specs.Write.{WriterOutcome};

use super::file::{put_front, put_rest};
use super::judge::{given_bytes, is_given, judge};
use super::length::{raw_len, tail_len};
use format::refusal::Refusal;
use game::Game;
use game::stores::Stores;
use players::slots::slots_of;
use start_block::block::put_block;

// The file stands at the output's start, and its length is answered; what follows it in the output stays.
pub fn write(out: &mut [u8], g: Game, stores: &Stores<'_>) -> Result<usize, Refusal>
    ensures { WriterOutcome g (stores_in stores.now) out.old result out.new }
{
    judge(g, stores)?;
    let f = g.frames;
    let s = slots_of(f);
    let raw = raw_len(g, s, stores.lent.presence, stores.template.len());
    let tail = tail_len(
        is_given(g.metadata_given),
        given_bytes(g.metadata_given, stores.metadata),
    );
    let total = 15 + (raw + tail);
    if out.len() < total {
        return Err(Refusal::ShortOutput);
    }
    let p = put_front(
        out,
        0,
        f.version,
        g.codes_given,
        g.actual_size,
        stores.template.len(),
        raw as u32,
    );
    let q = put_block(out, p, stores.template, f.version, g.start);
    put_rest(out, q, g, s, &stores.lent, stores.codes, stores.metadata);
    Ok(total)
}
