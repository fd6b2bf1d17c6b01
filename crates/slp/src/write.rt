// The writer.
ghost use Rattle.game.specs.Stores.{cells, offsets, lent, stores};
ghost use Rattle.slp.specs.Outcomes.{WriteOutcome};

use crate::lent::stores_of;
use answers::{SlpWritten, by_number, written_numbers};
use game::Game;

#[unsafe(no_mangle)]
pub extern "C" fn slp_write(
    out: &mut [u8],
    g: Game,
    ids: &[u32],
    starts: &[u32],
    pres: &[u32],
    posts: &[u32],
    ends: &[u32],
    items: &[u32],
    fods: &[u32],
    whispys: &[u32],
    stadiums: &[u32],
    item_offsets: &[u32],
    fod_offsets: &[u32],
    whispy_offsets: &[u32],
    stadium_offsets: &[u32],
    presence: &[u8],
    template: &[u8],
    codes: &[u8],
    metadata: &[u8],
) -> SlpWritten
    ensures { WriteOutcome g (stores (lent
        (cells ids.now starts.now pres.now posts.now ends.now
        items.now fods.now whispys.now stadiums.now)
        (offsets item_offsets.now fod_offsets.now whispy_offsets.now stadium_offsets.now)
        presence.now) template.now codes.now metadata.now) out.old result out.new }
{
    let stores = stores_of(
        ids,
        starts,
        pres,
        posts,
        ends,
        items,
        fods,
        whispys,
        stadiums,
        item_offsets,
        fod_offsets,
        whispy_offsets,
        stadium_offsets,
        presence,
        template,
        codes,
        metadata,
    );
    written_numbers(by_number(ser::write::write(out, g, &stores)))
}
