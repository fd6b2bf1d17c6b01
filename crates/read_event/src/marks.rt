// Single numbers into stores where a frame begins: its id, and how many rows were seen before it.
ghost use Rattle.std.specs.Prelude.{◌≡◌, true, ◌&&◌, ◌<◌};
ghost use Rattle.read_event.specs.Inner.{marked, offset_marked, opens, open_after};

use super::known::Known;
use super::seen::{Next, Open, Seen};
use format::event::{FRAME_PRE, FRAME_START};

// A number at an index, where it is wanted and the index is there.
pub fn mark(cells: &mut [u32], on: bool, n: usize, x: u32)
    ensures { cells.new ≡ marked on n x cells.old }
{
    if on {
        if n < cells.len() {
            cells[n] = x;
        }
    }
}

// An offset: how many rows were seen, where the version has the family.
fn mark_offset(offsets: &mut [u32], on: bool, has: bool, n: usize, rows: usize)
    ensures { offsets.new ≡ offset_marked (on && has) n rows offsets.old }
{
    mark(offsets, on & has, n, (rows % 4294967296) as u32);
}

// The four offsets of a frame, or those behind the last one.
pub fn mark_offsets(
    on: bool,
    item: bool,
    stage: bool,
    n: usize,
    next: Next,
    item_offsets: &mut [u32],
    fod_offsets: &mut [u32],
    whispy_offsets: &mut [u32],
    stadium_offsets: &mut [u32],
)
    ensures { (item_offsets.new ≡ offset_marked (on && item) n next.items item_offsets.old)
        × (fod_offsets.new ≡ offset_marked (on && stage) n next.fods fod_offsets.old)
        × (whispy_offsets.new ≡ offset_marked (on && stage) n next.whispys whispy_offsets.old)
        × (stadium_offsets.new ≡ offset_marked (on && stage) n next.stadiums stadium_offsets.old) }
{
    mark_offset(item_offsets, on, item, n, next.items);
    mark_offset(fod_offsets, on, stage, n, next.fods);
    mark_offset(whispy_offsets, on, stage, n, next.whispys);
    mark_offset(stadium_offsets, on, stage, n, next.stadiums);
}

// Whether an event is the first of a frame that the stores have room for.
pub fn is_first(start: bool, frames: usize, o: Open, code: u8, id: u32) -> bool
    ensures { result ≡ opens start frames o code id }
{
    if frames <= o.frames {
        return false;
    }
    if start {
        return code == FRAME_START;
    }
    if code != FRAME_PRE {
        return false;
    }
    if o.frames == 0 {
        return true;
    }
    o.id != id
}

// A frame more, where one begins.
pub fn opened(on: bool, id: u32, o: Open, frames: usize) -> Open
    requires { on ≡ true → o.frames < frames }
    ensures { result ≡ open_after on id o }
{
    if on {
        return Open {
            frames: o.frames + 1,
            id: id,
        };
    }
    o
}

// A frame's id and offsets, where an event is its first.
pub fn begin(
    k: Known,
    code: u8,
    id: u32,
    s: Seen,
    ids: &mut [u32],
    item_offsets: &mut [u32],
    fod_offsets: &mut [u32],
    whispy_offsets: &mut [u32],
    stadium_offsets: &mut [u32],
) -> Open
    ensures { let n = s.opened.frames in let on = opens k.course.start k.course.counts.frames s.opened code id in (result ≡ open_after on id s.opened)
        × (ids.new ≡ marked on n id ids.old)
        × (item_offsets.new ≡ offset_marked (on && k.item) n s.next.items item_offsets.old)
        × (fod_offsets.new ≡ offset_marked (on && k.stage) n s.next.fods fod_offsets.old)
        × (whispy_offsets.new ≡ offset_marked (on && k.stage) n s.next.whispys whispy_offsets.old)
        × (stadium_offsets.new ≡ offset_marked (on && k.stage) n s.next.stadiums stadium_offsets.old) }
{
    let c = k.course;
    let o = s.opened;
    let on = is_first(c.start, c.counts.frames, o, code, id);
    mark(ids, on, o.frames, id);
    mark_offsets(
        on,
        k.item,
        k.stage,
        o.frames,
        s.next,
        item_offsets,
        fod_offsets,
        whispy_offsets,
        stadium_offsets,
    );
    opened(on, id, o, c.counts.frames)
}
