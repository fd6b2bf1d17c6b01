// The rows of a file's frames into lent stores.
ghost use Rattle.std.specs.Prelude.{◌≡◌, List, ◌+◌, ◌≤◌, length};
ghost use Rattle.format.specs.File.{Ev};
ghost use Rattle.wire.specs.Wire.{Wrote};
ghost use Rattle.layout.specs.Columns.{widths_of};
ghost use Rattle.read_event.specs.Inner.{plan_of, spans_of};
ghost use Rattle.read_event.specs.Parts.{SpelledBy, SomeBy, rows, RowRooms, row_plan_of, rows_run};
ghost use Rattle.read_lists.specs.Inner.{Tabled};

use format::version::Version;
use game::frames::Frames;
use layout::columns::Family;
use layout::listing::widths;
use read_event::known::{Borders, Course, Known};
use read_event::spans::Spans;
use read_rows::pass::pass;

// The widths of a family's columns into a table. Answers where they end.
fn put_family(table: &mut [u8], at: usize, family: Family, v: Version) -> usize
    requires { at + 32 ≤ length table.old }
    ensures { Wrote table.old table.new at result (widths_of family v) × (result ≤ at + 32) }
{
    let l = widths(family, v);
    let n = l.count;
    let w = l.widths;
    wire::put_bytes(table, at, &w[..n])
}

// Those of six families, one after another. Answers where each family's end.
pub fn put_all(table: &mut [u8], v: Version) -> Borders
    requires { 192 ≤ length table.old }
    ensures { Tabled v result table.new }
{
    let start = put_family(table, 0, Family::FrameStart, v);
    let end = put_family(table, start, Family::FrameEnd, v);
    let item = put_family(table, end, Family::Item, v);
    let fod = put_family(table, item, Family::FodPlatform, v);
    let whispy = put_family(table, fod, Family::DreamlandWhispy, v);
    let stadium = put_family(table, whispy, Family::StadiumTransformation, v);
    Borders {
        start,
        end,
        item,
        fod,
        whispy,
        stadium,
    }
}

// The events of the frames of an input, which stand from `first` to `stop`, into the stores that are no player's.
pub fn fill_rows(
    file: &[u8],
    f: Frames,
    first: usize,
    stop: usize,
    z: Spans,
    ids: &mut [u32],
    starts: &mut [u32],
    ends: &mut [u32],
    items: &mut [u32],
    fods: &mut [u32],
    whispys: &mut [u32],
    stadiums: &mut [u32],
    item_offsets: &mut [u32],
    fod_offsets: &mut [u32],
    whispy_offsets: &mut [u32],
    stadium_offsets: &mut [u32],
)
    requires { (z ≡ spans_of (plan_of f))
        × SomeBy z file.now first stop
        × RowRooms (row_plan_of (plan_of f)) (rows ids.old starts.old ends.old items.old fods.old whispys.old stadiums.old item_offsets.old fod_offsets.old whispy_offsets.old stadium_offsets.old) }
    ensures { (es : List Ev) → SpelledBy z file.now first stop es
        → rows ids.new starts.new ends.new items.new fods.new whispys.new stadiums.new item_offsets.new fod_offsets.new whispy_offsets.new stadium_offsets.new
        ≡ rows_run (row_plan_of (plan_of f)) es
        (rows ids.old starts.old ends.old items.old fods.old whispys.old stadiums.old item_offsets.old fod_offsets.old whispy_offsets.old stadium_offsets.old) }
{
    let v = f.version;
    let counts = f.counts;
    let mut table = [0u8; 192];
    let borders = put_all(&mut table, v);
    let start = Family::FrameStart.exists(v);
    let item = Family::Item.exists(v);
    let stage = Family::FodPlatform.exists(v);
    let course = Course {
        spans: z,
        start,
        counts,
    };
    let k = Known {
        course,
        item,
        stage,
        borders,
    };
    pass(
        file,
        first,
        stop,
        &table,
        k,
        ids,
        starts,
        ends,
        items,
        fods,
        whispys,
        stadiums,
        item_offsets,
        fod_offsets,
        whispy_offsets,
        stadium_offsets,
    );
}
