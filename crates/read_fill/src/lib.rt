// The stores of a file that holds a replay.
#![tactic(auto)]

ghost use Rattle.std.specs.Prelude.{◌≡◌, false};
ghost use Rattle.game.specs.Stores.{lent, cells, offsets};
ghost use Rattle.read_judge.specs.Inner.{Accepts};
ghost use Rattle.read_judge.specs.Found.{version_of};
ghost use Rattle.measure.specs.Game.{kept, kept_read, lengths_of};
ghost use Rattle.measure.specs.Read.{kept_over};
ghost use Rattle.measure.specs.Inner.{lengths_in, short_by};

use measure::answer::frames_in;
use read_judge::parts::Parts;
use read_pass::fill::fill_events;

// The stores of a file that holds these parts, which are long enough.
pub fn read_into(
    file: &[u8],
    first: usize,
    stop: usize,
    p: Parts,
    ids: &mut [u32],
    starts: &mut [u32],
    pres: &mut [u32],
    posts: &mut [u32],
    ends: &mut [u32],
    items: &mut [u32],
    fods: &mut [u32],
    whispys: &mut [u32],
    stadiums: &mut [u32],
    item_offsets: &mut [u32],
    fod_offsets: &mut [u32],
    whispy_offsets: &mut [u32],
    stadium_offsets: &mut [u32],
    presence: &mut [u8],
    codes: &mut [u8],
)
    requires { Accepts file.now first stop p
        × (short_by (lengths_of (kept (lent
        (cells ids.old starts.old pres.old posts.old ends.old
        items.old fods.old whispys.old stadiums.old)
        (offsets item_offsets.old fod_offsets.old whispy_offsets.old stadium_offsets.old)
        presence.old) codes.old)) (lengths_in p) ≡ false) }
    ensures { (a : Accepts file.now first stop p)
        → kept (lent
        (cells ids.new starts.new pres.new posts.new ends.new
        items.new fods.new whispys.new stadiums.new)
        (offsets item_offsets.new fod_offsets.new whispy_offsets.new stadium_offsets.new)
        presence.new) codes.new
        ≡ kept_over (kept (lent
        (cells ids.old starts.old pres.old posts.old ends.old
        items.old fods.old whispys.old stadiums.old)
        (offsets item_offsets.old fod_offsets.old whispy_offsets.old stadium_offsets.old)
        presence.old) codes.old) (kept_read (version_of file.now) a.holds.found.replay) }
{
    let f = frames_in(p);
    let frames_at = p.frames_at;
    let ends_at = p.ends_at;
    fill_events(
        file,
        f,
        frames_at,
        ends_at,
        ids,
        starts,
        pres,
        posts,
        ends,
        items,
        fods,
        whispys,
        stadiums,
        item_offsets,
        fod_offsets,
        whispy_offsets,
        stadium_offsets,
        presence,
    );
    read_outline::copy_codes(file, p.codes_at, p.blocks, codes);
}
