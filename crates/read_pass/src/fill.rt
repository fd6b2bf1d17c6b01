// The frames of a file into lent stores.
ghost use Rattle.std.specs.Prelude.{◌≡◌, false, List};
ghost use Rattle.format.specs.File.{Ev};
ghost use Rattle.players.specs.Inner.{Modest};
ghost use Rattle.players.specs.Presence.{ports_uneven};
ghost use Rattle.game.specs.Stores.{cells, offsets, lent};
ghost use Rattle.read_event.specs.Inner.{plan_of, cleared, run, none, Rooms, Spelled, SomeSpelled};
ghost use Rattle.read_pass.specs.Inner.{spans_in};

use format::version::Version;
use game::frames::Frames;
use layout::columns::Family;
use layout::listing::size;
use players::slots::slots_of;
use read_eights::fill::fill_players;
use read_event::numbers::numbers_of;
use read_event::spans::Spans;
use read_event::zeros::clear_players;
use read_lists::fill::fill_rows;

// How many bytes a version's events have.
fn spans_of(v: Version) -> Spans
    ensures { result ≡ spans_in v }
{
    Spans {
        pre: 7 + size(Family::Pre, v),
        post: 7 + size(Family::Post, v),
        start: 5 + size(Family::FrameStart, v),
        item: 5 + size(Family::Item, v),
        end: 5 + size(Family::FrameEnd, v),
        fod: 5 + size(Family::FodPlatform, v),
        whispy: 5 + size(Family::DreamlandWhispy, v),
        stadium: 5 + size(Family::StadiumTransformation, v),
    }
}

// The events of the frames of an input, which stand from `first` to `stop`, into its stores.
pub fn fill_events(
    file: &[u8],
    f: Frames,
    first: usize,
    stop: usize,
    ids: &mut [u32],
    starts: &mut [u32],
    pres: &mut [u32],
    posts: &mut [u32],
    ends: &mut [u32],
    items: &mut [u32],
    fods: &mut [u32],
    whispys: &mut [u32],
    stadiums: &mut [u32],
    item_offsets: &mut [u32],
    fod_offsets: &mut [u32],
    whispy_offsets: &mut [u32],
    stadium_offsets: &mut [u32],
    presence: &mut [u8],
)
    requires { Modest f × (ports_uneven f ≡ false)
        × SomeSpelled (plan_of f) file.now first stop
        × Rooms (plan_of f) (lent (cells ids.old starts.old pres.old posts.old ends.old items.old fods.old whispys.old stadiums.old) (offsets item_offsets.old fod_offsets.old whispy_offsets.old stadium_offsets.old) presence.old) }
    ensures { (es : List Ev) → Spelled (plan_of f) file.now first stop es
        → lent (cells ids.new starts.new pres.new posts.new ends.new items.new fods.new whispys.new stadiums.new)
        (offsets item_offsets.new fod_offsets.new whispy_offsets.new stadium_offsets.new) presence.new
        ≡ run (plan_of f) es none
        (cleared f (lent (cells ids.old starts.old pres.old posts.old ends.old items.old fods.old whispys.old stadiums.old)
        (offsets item_offsets.old fod_offsets.old whispy_offsets.old stadium_offsets.old) presence.old)) }
{
    let s = slots_of(f);
    let numbers = numbers_of(f, s);
    clear_players(f, s.count, pres, posts, presence);
    let z = spans_of(f.version);
    fill_players(file, f, first, stop, z, numbers, pres, posts, presence);
    fill_rows(
        file,
        f,
        first,
        stop,
        z,
        ids,
        starts,
        ends,
        items,
        fods,
        whispys,
        stadiums,
        item_offsets,
        fod_offsets,
        whispy_offsets,
        stadium_offsets,
    );
}
