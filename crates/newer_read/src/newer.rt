// The stores of a newer recorder's file, by the events that are known.
ghost use Rattle.std.specs.Prelude.{◌≡◌, false};
ghost use Rattle.format.specs.Version.{accepted_of};
ghost use Rattle.game.specs.Stores.{lent, cells, offsets};
ghost use Rattle.read_judge.specs.Found.{version_of};
ghost use Rattle.newer_judge.specs.Inner.{Indexed, Shows};
ghost use Rattle.measure.specs.Game.{kept, kept_read, lengths_of};
ghost use Rattle.measure.specs.Read.{kept_over};
ghost use Rattle.measure.specs.Inner.{lengths_in, short_by};

use measure::answer::frames_in;
use newer_fill::fill::fill_newer;
use read_judge::parts::Parts;

// By the spans of the file's own table.
fn read_by(
    file: &[u8],
    spans: &[u32],
    first: usize,
    stop: usize,
    p: Parts,
    ids: &mut [u32],
    starts: &mut [u32],
    pres: &mut [u32],
    posts: &mut [u32],
    ends: &mut [u32],
    items: &mut [u32],
    fods: &mut [u32],
    whispys: &mut [u32],
    stadiums: &mut [u32],
    item_offsets: &mut [u32],
    fod_offsets: &mut [u32],
    whispy_offsets: &mut [u32],
    stadium_offsets: &mut [u32],
    presence: &mut [u8],
    codes: &mut [u8],
)
    requires { Shows file.now first stop p × (accepted_of p.version ≡ false) × Indexed file.now spans.now
        × (short_by (lengths_of (kept (lent
        (cells ids.old starts.old pres.old posts.old ends.old
        items.old fods.old whispys.old stadiums.old)
        (offsets item_offsets.old fod_offsets.old whispy_offsets.old stadium_offsets.old)
        presence.old) codes.old)) (lengths_in p) ≡ false) }
    ensures { (a : Shows file.now first stop p)
        → kept (lent
        (cells ids.new starts.new pres.new posts.new ends.new
        items.new fods.new whispys.new stadiums.new)
        (offsets item_offsets.new fod_offsets.new whispy_offsets.new stadium_offsets.new)
        presence.new) codes.new
        ≡ kept_over (kept (lent
        (cells ids.old starts.old pres.old posts.old ends.old
        items.old fods.old whispys.old stadiums.old)
        (offsets item_offsets.old fod_offsets.old whispy_offsets.old stadium_offsets.old)
        presence.old) codes.old) (kept_read (version_of file.now) a.shown.found.replay) }
{
    let f = frames_in(p);
    let frames_at = p.frames_at;
    let ends_at = p.ends_at;
    fill_newer(
        file,
        spans,
        f,
        frames_at,
        ends_at,
        ids,
        starts,
        pres,
        posts,
        ends,
        items,
        fods,
        whispys,
        stadiums,
        item_offsets,
        fod_offsets,
        whispy_offsets,
        stadium_offsets,
        presence,
    );
    newer_codes::copy_codes(file, spans, p.codes_at, frames_at, p.blocks, codes);
}

// The stores of a newer recorder's file that holds these parts, which are long enough.
pub fn read_newer(
    file: &[u8],
    first: usize,
    stop: usize,
    p: Parts,
    ids: &mut [u32],
    starts: &mut [u32],
    pres: &mut [u32],
    posts: &mut [u32],
    ends: &mut [u32],
    items: &mut [u32],
    fods: &mut [u32],
    whispys: &mut [u32],
    stadiums: &mut [u32],
    item_offsets: &mut [u32],
    fod_offsets: &mut [u32],
    whispy_offsets: &mut [u32],
    stadium_offsets: &mut [u32],
    presence: &mut [u8],
    codes: &mut [u8],
)
    requires { Shows file.now first stop p × (accepted_of p.version ≡ false)
        × (short_by (lengths_of (kept (lent
        (cells ids.old starts.old pres.old posts.old ends.old
        items.old fods.old whispys.old stadiums.old)
        (offsets item_offsets.old fod_offsets.old whispy_offsets.old stadium_offsets.old)
        presence.old) codes.old)) (lengths_in p) ≡ false) }
    ensures { (a : Shows file.now first stop p)
        → kept (lent
        (cells ids.new starts.new pres.new posts.new ends.new
        items.new fods.new whispys.new stadiums.new)
        (offsets item_offsets.new fod_offsets.new whispy_offsets.new stadium_offsets.new)
        presence.new) codes.new
        ≡ kept_over (kept (lent
        (cells ids.old starts.old pres.old posts.old ends.old
        items.old fods.old whispys.old stadiums.old)
        (offsets item_offsets.old fod_offsets.old whispy_offsets.old stadium_offsets.old)
        presence.old) codes.old) (kept_read (version_of file.now) a.shown.found.replay) }
{
    let mut spans = [0u32; 256];
    head::table::parse_head(file, &mut spans);
    read_by(
        file,
        &spans,
        first,
        stop,
        p,
        ids,
        starts,
        pres,
        posts,
        ends,
        items,
        fods,
        whispys,
        stadiums,
        item_offsets,
        fod_offsets,
        whispy_offsets,
        stadium_offsets,
        presence,
        codes,
    );
}
