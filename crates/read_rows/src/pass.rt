// One pass over the events of the frames, for the stores that are no player's.
ghost use Rattle.std.specs.Prelude.{◌≡◌, ◌≤◌, ◌<◌, length, List};
ghost use Rattle.format.specs.File.{Ev};
ghost use Rattle.read_event.specs.Inner.{none};
ghost use Rattle.read_event.specs.Known.{Parted, plan_in};
ghost use Rattle.read_event.specs.Parts.{SpelledBy, SomeBy, rows, RowSpans, RowRooms, rows_run};

use format::event::FRAME_START;
use read_event::known::Known;
use read_event::marks::mark_offsets;
use read_event::seen::{Next, Open, Seen};
use read_event::spans::span_of;
use read_leap::leap::{Stride, leap, leaps_at};
use read_turn::quiet::after_quiet;
use read_turn::turn::turn;

// Nothing was seen.
fn nothing() -> Seen
    ensures { result ≡ none }
{
    Seen {
        opened: Open { frames: 0, id: 0 },
        next: Next {
            starts: 0,
            ends: 0,
            items: 0,
            fods: 0,
            whispys: 0,
            stadiums: 0,
        },
    }
}

// Where the last FrameStart stands after the event at a place.
fn last_at(file: &[u8], at: usize, last: usize) -> usize
    requires { (at < length file.now) × (last ≤ at) }
    ensures { result ≤ at }
{
    if file[at] == FRAME_START {
        return at;
    }
    last
}

// The events between two places into the stores.
pub fn pass(
    file: &[u8],
    first: usize,
    stop: usize,
    widths: &[u8],
    k: Known,
    ids: &mut [u32],
    starts: &mut [u32],
    ends: &mut [u32],
    items: &mut [u32],
    fods: &mut [u32],
    whispys: &mut [u32],
    stadiums: &mut [u32],
    item_offsets: &mut [u32],
    fod_offsets: &mut [u32],
    whispy_offsets: &mut [u32],
    stadium_offsets: &mut [u32],
)
    requires { let q = plan_in k widths.now in
        RowSpans k.course.spans q
        × SomeBy k.course.spans file.now first stop
        × RowRooms q (rows ids.old starts.old ends.old items.old fods.old whispys.old stadiums.old item_offsets.old fod_offsets.old whispy_offsets.old stadium_offsets.old)
        × Parted k.borders widths.now }
    ensures { (es : List Ev) → SpelledBy k.course.spans file.now first stop es
        → rows ids.new starts.new ends.new items.new fods.new whispys.new stadiums.new item_offsets.new fod_offsets.new whispy_offsets.new stadium_offsets.new
        ≡ rows_run (plan_in k widths.now) es
        (rows ids.old starts.old ends.old items.old fods.old whispys.old stadiums.old item_offsets.old fod_offsets.old whispy_offsets.old stadium_offsets.old) }
{
    let c = k.course;
    let z = c.spans;
    let mut s = nothing();
    let mut at = first;
    let mut last = first;
    while at < stop {
        let e = leaps_at(file, c, at, stop, last, s);
        if 0 < e {
            let step = at - last;
            let l = Stride { at, step, end: e };
            s = leap(
                file,
                l,
                s,
                widths,
                k,
                ids,
                starts,
                ends,
                item_offsets,
                fod_offsets,
                whispy_offsets,
                stadium_offsets,
            );
            last = at + 7 * step;
            at = last + step;
        } else {
            let next = at + span_of(z, file[at]);
            last = last_at(file, at, last);
            s = turn(
                file,
                at,
                s,
                widths,
                k,
                ids,
                starts,
                ends,
                items,
                fods,
                whispys,
                stadiums,
                item_offsets,
                fod_offsets,
                whispy_offsets,
                stadium_offsets,
            );
            at = after_quiet(file, z, c.start, s.opened, next, stop);
        }
    }
    mark_offsets(
        true,
        k.item,
        k.stage,
        s.opened.frames,
        s.next,
        item_offsets,
        fod_offsets,
        whispy_offsets,
        stadium_offsets,
    );
}
