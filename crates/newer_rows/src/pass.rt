// One pass over the events of a newer recorder's frames, for the stores that are no player's.
ghost use Rattle.std.specs.Prelude.{◌≡◌, true, List, length};
ghost use Rattle.format.specs.File.{Ev};
ghost use Rattle.newer_events.specs.Some.{SomeCovers};
ghost use Rattle.newer_places.specs.Known.{KnownIn, SomeKnown};
ghost use Rattle.read_event.specs.Inner.{none};
ghost use Rattle.read_event.specs.Known.{Parted, plan_in};
ghost use Rattle.read_event.specs.Parts.{rows, RowSpans, RowRooms, rows_run};
ghost use Rattle.newer_rows.specs.Inner.{is_row, Passed};

use format::event::{
    DREAMLAND_WHISPY, FOD_PLATFORM, FRAME_END, FRAME_START, ITEM, STADIUM_TRANSFORMATION,
};
use read_event::known::Known;
use read_event::marks::mark_offsets;
use read_event::seen::{Next, Open, Seen};
use read_scan::event::span_of;
use read_turn::turn::turn;

// Nothing was seen.
fn nothing() -> Seen
    ensures { result ≡ none }
{
    Seen {
        opened: Open { frames: 0, id: 0 },
        next: Next {
            starts: 0,
            ends: 0,
            items: 0,
            fods: 0,
            whispys: 0,
            stadiums: 0,
        },
    }
}

// Whether an event has a row in one of the stores. Players' events come first: most events are.
fn is_row(code: u8) -> bool
    ensures { result ≡ is_row code }
{
    if code < FRAME_START {
        return false;
    }
    let stage = (code == DREAMLAND_WHISPY) | (code == STADIUM_TRANSFORMATION);
    let others = (code == FRAME_END) | ((code == FOD_PLATFORM) | stage);
    (code == FRAME_START) | ((code == ITEM) | others)
}

// The place of the next such event, from a place on. Of what is passed over only the code is read: an unknown event may have no more.
fn next_row(file: &[u8], spans: &[u32], at: usize, stop: usize) -> usize
    requires { (length spans.now ≡ 256) × SomeCovers file.now spans.now at stop }
    ensures { Passed file.now spans.now at stop result }
{
    let mut e = at;
    while e < stop {
        let code = file[e];
        if is_row(code) {
            return e;
        }
        e += span_of(spans, code);
    }
    e
}

// The known events between two places into the stores. A FrameStart begins each frame.
pub fn pass(
    file: &[u8],
    spans: &[u32],
    first: usize,
    stop: usize,
    widths: &[u8],
    k: Known,
    ids: &mut [u32],
    starts: &mut [u32],
    ends: &mut [u32],
    items: &mut [u32],
    fods: &mut [u32],
    whispys: &mut [u32],
    stadiums: &mut [u32],
    item_offsets: &mut [u32],
    fod_offsets: &mut [u32],
    whispy_offsets: &mut [u32],
    stadium_offsets: &mut [u32],
)
    requires { let q = plan_in k widths.now in
        RowSpans k.course.spans q
        × (k.course.start ≡ true)
        × (length spans.now ≡ 256)
        × SomeKnown k.course.spans file.now spans.now first stop
        × RowRooms q (rows ids.old starts.old ends.old items.old fods.old whispys.old stadiums.old item_offsets.old fod_offsets.old whispy_offsets.old stadium_offsets.old)
        × Parted k.borders widths.now }
    ensures { (es : List Ev) → KnownIn k.course.spans file.now spans.now first stop es
        → rows ids.new starts.new ends.new items.new fods.new whispys.new stadiums.new item_offsets.new fod_offsets.new whispy_offsets.new stadium_offsets.new
        ≡ rows_run (plan_in k widths.now) es
        (rows ids.old starts.old ends.old items.old fods.old whispys.old stadiums.old item_offsets.old fod_offsets.old whispy_offsets.old stadium_offsets.old) }
{
    let mut s = nothing();
    let mut at = next_row(file, spans, first, stop);
    while at < stop {
        let next = at + span_of(spans, file[at]);
        s = turn(
            file,
            at,
            s,
            widths,
            k,
            ids,
            starts,
            ends,
            items,
            fods,
            whispys,
            stadiums,
            item_offsets,
            fod_offsets,
            whispy_offsets,
            stadium_offsets,
        );
        at = next_row(file, spans, next, stop);
    }
    mark_offsets(
        true,
        k.item,
        k.stage,
        s.opened.frames,
        s.next,
        item_offsets,
        fod_offsets,
        whispy_offsets,
        stadium_offsets,
    );
}
