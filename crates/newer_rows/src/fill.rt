// The rows of a newer recorder's frames into lent stores.
ghost use Rattle.std.specs.Prelude.{◌≡◌, true, List, length};
ghost use Rattle.format.specs.File.{Ev};
ghost use Rattle.known.specs.Known.{is_newer};
ghost use Rattle.newer_places.specs.Known.{KnownIn, SomeKnown};
ghost use Rattle.read_event.specs.Inner.{plan_of, spans_of};
ghost use Rattle.read_event.specs.Parts.{rows, RowRooms, row_plan_of, rows_run};

use super::pass::pass;
use game::frames::Frames;
use read_event::known::{Course, Known};
use read_event::spans::Spans;
use read_lists::fill::put_all;

// The known events that stand from `first` to `stop` into the stores that are no player's.
pub fn fill_rows(
    file: &[u8],
    spans: &[u32],
    f: Frames,
    first: usize,
    stop: usize,
    z: Spans,
    ids: &mut [u32],
    starts: &mut [u32],
    ends: &mut [u32],
    items: &mut [u32],
    fods: &mut [u32],
    whispys: &mut [u32],
    stadiums: &mut [u32],
    item_offsets: &mut [u32],
    fod_offsets: &mut [u32],
    whispy_offsets: &mut [u32],
    stadium_offsets: &mut [u32],
)
    requires { (z ≡ spans_of (plan_of f))
        × (is_newer f.version ≡ true)
        × (length spans.now ≡ 256)
        × SomeKnown z file.now spans.now first stop
        × RowRooms (row_plan_of (plan_of f)) (rows ids.old starts.old ends.old items.old fods.old whispys.old stadiums.old item_offsets.old fod_offsets.old whispy_offsets.old stadium_offsets.old) }
    ensures { (es : List Ev) → KnownIn z file.now spans.now first stop es
        → rows ids.new starts.new ends.new items.new fods.new whispys.new stadiums.new item_offsets.new fod_offsets.new whispy_offsets.new stadium_offsets.new
        ≡ rows_run (row_plan_of (plan_of f)) es
        (rows ids.old starts.old ends.old items.old fods.old whispys.old stadiums.old item_offsets.old fod_offsets.old whispy_offsets.old stadium_offsets.old) }
{
    let counts = f.counts;
    let mut table = [0u8; 192];
    let borders = put_all(&mut table, f.version);
    let course = Course {
        spans: z,
        start: true,
        counts,
    };
    // A newer version has every family.
    let k = Known {
        course,
        item: true,
        stage: true,
        borders,
    };
    pass(
        file,
        spans,
        first,
        stop,
        &table,
        k,
        ids,
        starts,
        ends,
        items,
        fods,
        whispys,
        stadiums,
        item_offsets,
        fod_offsets,
        whispy_offsets,
        stadium_offsets,
    );
}
