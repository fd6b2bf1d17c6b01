// Frames at a place of an output: a run of them, or one.
ghost use Rattle.std.specs.Prelude.{◌+◌};
ghost use Rattle.game.specs.Stores.{cells, offsets, lent};
ghost use Rattle.slp.specs.Outcomes.{AppendOutcome};

use crate::lent::lent_of;
use answers::{SlpAppended, appended_numbers, by_number};
use append::run::{write_frame, write_frames};
use game::frames::Frames;

#[unsafe(no_mangle)]
pub extern "C" fn slp_write_frames(
    out: &mut [u8],
    place: usize,
    f: Frames,
    ids: &[u32],
    starts: &[u32],
    pres: &[u32],
    posts: &[u32],
    ends: &[u32],
    items: &[u32],
    fods: &[u32],
    whispys: &[u32],
    stadiums: &[u32],
    item_offsets: &[u32],
    fod_offsets: &[u32],
    whispy_offsets: &[u32],
    stadium_offsets: &[u32],
    presence: &[u8],
    a: usize,
    b: usize,
) -> SlpAppended
    ensures { AppendOutcome f (lent
        (cells ids.now starts.now pres.now posts.now ends.now
        items.now fods.now whispys.now stadiums.now)
        (offsets item_offsets.now fod_offsets.now whispy_offsets.now stadium_offsets.now)
        presence.now) a b place out.old result out.new }
{
    let lent = lent_of(
        ids,
        starts,
        pres,
        posts,
        ends,
        items,
        fods,
        whispys,
        stadiums,
        item_offsets,
        fod_offsets,
        whispy_offsets,
        stadium_offsets,
        presence,
    );
    appended_numbers(by_number(write_frames(out, place, f, &lent, a, b)))
}

#[unsafe(no_mangle)]
pub extern "C" fn slp_write_frame(
    out: &mut [u8],
    place: usize,
    f: Frames,
    ids: &[u32],
    starts: &[u32],
    pres: &[u32],
    posts: &[u32],
    ends: &[u32],
    items: &[u32],
    fods: &[u32],
    whispys: &[u32],
    stadiums: &[u32],
    item_offsets: &[u32],
    fod_offsets: &[u32],
    whispy_offsets: &[u32],
    stadium_offsets: &[u32],
    presence: &[u8],
    i: usize,
) -> SlpAppended
    ensures { AppendOutcome f (lent
        (cells ids.now starts.now pres.now posts.now ends.now
        items.now fods.now whispys.now stadiums.now)
        (offsets item_offsets.now fod_offsets.now whispy_offsets.now stadium_offsets.now)
        presence.now) i (i + 1) place out.old result out.new }
{
    let lent = lent_of(
        ids,
        starts,
        pres,
        posts,
        ends,
        items,
        fods,
        whispys,
        stadiums,
        item_offsets,
        fod_offsets,
        whispy_offsets,
        stadium_offsets,
        presence,
    );
    appended_numbers(by_number(write_frame(out, place, f, &lent, i)))
}
