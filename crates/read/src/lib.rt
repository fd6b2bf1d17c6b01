// The game of a file, into lent stores: the public `read`.
#![tactic(auto)]

ghost use Rattle.game.specs.Stores.{lent, cells, offsets};
ghost use Rattle.measure.specs.Game.{kept};
ghost use Rattle.measure.specs.Read.{ReadOutcome};

use measure::Opened;
use measure::answer::not_opened;
use read_held::read_held;
use read_judge::Verdict;

// Of any file. Where it is refused, no store changes.
pub fn read(
    file: &[u8],
    ids: &mut [u32],
    starts: &mut [u32],
    pres: &mut [u32],
    posts: &mut [u32],
    ends: &mut [u32],
    items: &mut [u32],
    fods: &mut [u32],
    whispys: &mut [u32],
    stadiums: &mut [u32],
    item_offsets: &mut [u32],
    fod_offsets: &mut [u32],
    whispy_offsets: &mut [u32],
    stadium_offsets: &mut [u32],
    presence: &mut [u8],
    codes: &mut [u8],
) -> Opened
    ensures { ReadOutcome file.now
        (kept (lent
        (cells ids.old starts.old pres.old posts.old ends.old
        items.old fods.old whispys.old stadiums.old)
        (offsets item_offsets.old fod_offsets.old whispy_offsets.old stadium_offsets.old)
        presence.old) codes.old)
        result
        (kept (lent
        (cells ids.new starts.new pres.new posts.new ends.new
        items.new fods.new whispys.new stadiums.new)
        (offsets item_offsets.new fod_offsets.new whispy_offsets.new stadium_offsets.new)
        presence.new) codes.new) }
{
    let v = newer_judge::judge(file);
    match v {
        Verdict::Refused { number, offset } => not_opened(number, offset),
        Verdict::Held { first, stop, parts } => read_held(
            file,
            first,
            stop,
            parts,
            ids,
            starts,
            pres,
            posts,
            ends,
            items,
            fods,
            whispys,
            stadiums,
            item_offsets,
            fod_offsets,
            whispy_offsets,
            stadium_offsets,
            presence,
            codes,
        ),
    }
}
