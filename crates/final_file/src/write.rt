// The public call: the replay of a game's final frames in the output, or a refusal that touches nothing.
ghost use Rattle.std.specs.Prelude.{◌≡◌, length};
ghost use Rattle.game.specs.Held.{stores_in};
ghost use Rattle.final_file.specs.Write.{FinalOutcome};

use super::file::put_rest;
use super::judge::judge;
use super::length::{raw_len, tail_len};
use final_rows::windows::mask_rows;
use format::refusal::Refusal;
use game::Game;
use game::stores::Stores;
use players::slots::slots_of;
use ser::file::put_front;
use start_block::block::put_block;

// Only the rows which the ExceptLast mask leaves at 0 are written, in their order. The file stands at the output's start, and its length is answered; what
// follows it in the output stays. The scratch gets the mask, a byte a row, and what follows it stays. A refused call changes no byte of either.
pub fn write_final(
    out: &mut [u8],
    scratch: &mut [u8],
    g: Game,
    stores: &Stores<'_>,
) -> Result<usize, Refusal>
    ensures { FinalOutcome g (stores_in stores.now)
        out.old scratch.old result out.new scratch.new }
{
    judge(g, stores, scratch.len())?;
    let f = g.frames;
    let s = slots_of(f);
    let raw = raw_len(
        g,
        s,
        stores.lent.cells.ids,
        &stores.lent.offsets,
        stores.lent.presence,
        stores.template.len(),
    );
    let total = 15 + (raw + tail_len(g, stores.metadata));
    if out.len() < total {
        return Err(Refusal::ShortOutput);
    }
    let rows = stores.lent.cells.ids.len();
    mask_rows(stores.lent.cells.ids, &mut scratch[..rows]);
    let p = put_front(
        out,
        0,
        f.version,
        g.codes_given,
        g.actual_size,
        stores.template.len(),
        raw as u32,
    );
    let q = put_block(out, p, stores.template, f.version, g.start);
    put_rest(
        out,
        q,
        g,
        s,
        &scratch[..rows],
        &stores.lent,
        stores.codes,
        stores.metadata,
    );
    Ok(total)
}
