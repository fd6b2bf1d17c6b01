// One event of a frame into the stores that are no player's.
ghost use Rattle.std.specs.Prelude.{◌≡◌};
ghost use Rattle.read_event.specs.Inner.{told_at};
ghost use Rattle.read_event.specs.Known.{Parted, plan_in};
ghost use Rattle.read_event.specs.Parts.{WholeBy, rows, RowSpans, RowRooms, rowing, go_rows};

use read_event::known::Known;
use read_event::marks::begin;
use read_event::rows::put_rows;
use read_event::seen::Seen;

// One event into the stores.
pub fn turn(
    file: &[u8],
    at: usize,
    s: Seen,
    widths: &[u8],
    k: Known,
    ids: &mut [u32],
    starts: &mut [u32],
    ends: &mut [u32],
    items: &mut [u32],
    fods: &mut [u32],
    whispys: &mut [u32],
    stadiums: &mut [u32],
    item_offsets: &mut [u32],
    fod_offsets: &mut [u32],
    whispy_offsets: &mut [u32],
    stadium_offsets: &mut [u32],
) -> Seen
    requires { let q = plan_in k widths.now in
        RowSpans k.course.spans q
        × WholeBy k.course.spans file.now at
        × RowRooms q (rows ids.old starts.old ends.old items.old fods.old whispys.old stadiums.old item_offsets.old fod_offsets.old whispy_offsets.old stadium_offsets.old)
        × Parted k.borders widths.now }
    ensures { rowing result (rows ids.new starts.new ends.new items.new fods.new whispys.new stadiums.new item_offsets.new fod_offsets.new whispy_offsets.new stadium_offsets.new)
        ≡ go_rows (plan_in k widths.now)
        (rowing s (rows ids.old starts.old ends.old items.old fods.old whispys.old stadiums.old item_offsets.old fod_offsets.old whispy_offsets.old stadium_offsets.old))
        (told_at file.now at) }
{
    let code = file[at];
    let id = wire::get_be(file, at + 1, 4);
    let o = begin(
        k,
        code,
        id,
        s,
        ids,
        item_offsets,
        fod_offsets,
        whispy_offsets,
        stadium_offsets,
    );
    let n = put_rows(
        code,
        file,
        at + 5,
        widths,
        k,
        s.next,
        starts,
        ends,
        items,
        fods,
        whispys,
        stadiums,
    );
    Seen { opened: o, next: n }
}
