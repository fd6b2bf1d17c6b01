// The game of a file that holds a replay, into lent stores that may be too short.
#![tactic(auto)]

ghost use Rattle.game.specs.Stores.{lent, cells, offsets};
ghost use Rattle.newer_judge.specs.Inner.{Shows};
ghost use Rattle.measure.specs.Game.{kept};
ghost use Rattle.measure.specs.Read.{ReadOutcome};

use format::refusal::SHORT_OUTPUT;
use measure::Opened;
use measure::answer::{lengths_in, not_opened, opened};
use measure::lengths::Lengths;
use measure::short::short;
use measure::tail::gecko_span;
use newer_read::read_shown;
use read_judge::parts::Parts;

// Of a file that holds these parts: 12 where a store is too short.
pub fn read_held(
    file: &[u8],
    first: usize,
    stop: usize,
    p: Parts,
    ids: &mut [u32],
    starts: &mut [u32],
    pres: &mut [u32],
    posts: &mut [u32],
    ends: &mut [u32],
    items: &mut [u32],
    fods: &mut [u32],
    whispys: &mut [u32],
    stadiums: &mut [u32],
    item_offsets: &mut [u32],
    fod_offsets: &mut [u32],
    whispy_offsets: &mut [u32],
    stadium_offsets: &mut [u32],
    presence: &mut [u8],
    codes: &mut [u8],
) -> Opened
    requires { Shows file.now first stop p }
    ensures { ReadOutcome file.now
        (kept (lent
        (cells ids.old starts.old pres.old posts.old ends.old
        items.old fods.old whispys.old stadiums.old)
        (offsets item_offsets.old fod_offsets.old whispy_offsets.old stadium_offsets.old)
        presence.old) codes.old)
        result
        (kept (lent
        (cells ids.new starts.new pres.new posts.new ends.new
        items.new fods.new whispys.new stadiums.new)
        (offsets item_offsets.new fod_offsets.new whispy_offsets.new stadium_offsets.new)
        presence.new) codes.new) }
{
    let given = Lengths {
        ids: ids.len(),
        starts: starts.len(),
        pres: pres.len(),
        posts: posts.len(),
        ends: ends.len(),
        items: items.len(),
        fods: fods.len(),
        whispys: whispys.len(),
        stadiums: stadiums.len(),
        item_offsets: item_offsets.len(),
        fod_offsets: fod_offsets.len(),
        whispy_offsets: whispy_offsets.len(),
        stadium_offsets: stadium_offsets.len(),
        presence: presence.len(),
        codes: codes.len(),
    };
    if short(given, lengths_in(p)) {
        return not_opened(SHORT_OUTPUT, 0);
    }
    read_shown(
        file,
        first,
        stop,
        p,
        ids,
        starts,
        pres,
        posts,
        ends,
        items,
        fods,
        whispys,
        stadiums,
        item_offsets,
        fod_offsets,
        whispy_offsets,
        stadium_offsets,
        presence,
        codes,
    );
    opened(file, gecko_span(file, first), first, stop, p)
}
