// Eight frames a step apart that have players' events alone between FrameStart and FrameEnd: what they bring, eight rows at a time.
ghost use Rattle.std.specs.Prelude.{◌≡◌, true, cond, ◌+◌, ◌-◌, ◌*◌, ◌≤◌, ◌<◌, ltb, length};
ghost use Rattle.layout.specs.Columns.{sum};
ghost use Rattle.read_event.specs.Inner.{Roomy};
ghost use Rattle.read_event.specs.Known.{Parted, plan_in};
ghost use Rattle.read_event.specs.Parts.{SomeBy};
ghost use Rattle.read_leap.specs.Inner.{ids_put, offsets_put, rows_put, seen_then, Leapt, Leaps};

use format::event::{FRAME_END, FRAME_START};
use gather::get_records;
use read_event::alike::{goes_on, is_ahead, put_steps};
use read_event::known::{Course, Known};
use read_event::marks::mark;
use read_event::seen::{Next, Open, Seen};

// Eight frames a step apart: where the first of them begins, and where its players' events end.
#[derive(Clone, Copy)]
pub struct Stride {
    pub at: usize,
    pub step: usize,
    pub end: usize,
}

// Where the players' events of the first of them end; 0 where they are not alike.
fn ends_at(file: &[u8], c: Course, at: usize, stop: usize, step: usize, was: usize) -> usize
    requires { (at < stop) × (was ≤ 1048576) × SomeBy c.spans file.now at stop }
    ensures { 0 < result → Leapt c.spans c.start file.now at stop step was c.counts.frames result }
{
    let z = c.spans;
    let n = c.counts;
    if is_ahead(file, z, c.start, at, stop, step, was + 1, n.frames) {
        let next = at + step;
        let mut e = at + z.start;
        // Each event's own code says how far the next one is: no range or step counts them.
        while e < next {
            let span = goes_on(file, z, e, next, step);
            if span == 0 {
                return 0;
            }
            let code = file[e];
            if FRAME_START <= code {
                if code != FRAME_END {
                    return 0;
                }
                if e + span != next {
                    return 0;
                }
                return e;
            }
            e += span;
        }
        return e;
    }
    0
}

// Where they end at a FrameStart, where the stores have their rows: the frames are as far apart as it is behind the last one.
pub fn leaps_at(file: &[u8], c: Course, at: usize, stop: usize, last: usize, s: Seen) -> usize
    requires { (at < stop) × (at < length file.now) × (last ≤ at) × SomeBy c.spans file.now at stop }
    ensures { 0 < result → Leaps c.spans c.start file.now at stop (at - last) s c.counts.frames result }
{
    if file[at] != FRAME_START {
        return 0;
    }
    let step = at - last;
    if step < 5 {
        return 0;
    }
    let frames = c.counts.frames;
    if frames < 8 {
        return 0;
    }
    if frames - 8 < s.next.starts {
        return 0;
    }
    if frames - 8 < s.next.ends {
        return 0;
    }
    if 1048576 < s.opened.frames {
        return 0;
    }
    ends_at(file, c, at, stop, step, s.opened.frames)
}

// Their ids.
fn put_ids(file: &[u8], at: usize, step: usize, n: usize, ids: &mut [u32])
    requires { (at + (8 * step) ≤ length file.now) × (5 ≤ step) × (n ≤ 1048576) }
    ensures { ids.new ≡ ids_put file.now at step 8 n ids.old }
{
    let mut p = at;
    for t in 0..8 {
        mark(ids, true, n + t, wire::get_be(file, p + 1, 4));
        p += step;
    }
}

// An offset of each, where the version has the family: none of them has a row of it.
fn put_offsets(on: bool, n: usize, rows: usize, offsets: &mut [u32])
    requires { n ≤ 1048576 }
    ensures { offsets.new ≡ offsets_put on 8 n rows offsets.old }
{
    if on {
        let x = (rows % 4294967296) as u32;
        for t in 0..8 {
            mark(offsets, true, n + t, x);
        }
    }
}

// A row of each.
fn put_stepped(
    file: &[u8],
    at: usize,
    step: usize,
    widths: &[u8],
    cells: &mut [u32],
    stride: usize,
    row: usize,
)
    requires { (at + (7 * step + (5 + sum widths.now)) ≤ length file.now)
        × Roomy widths.now cells.old 1 stride
        × (row + 8 ≤ stride) }
    ensures { cells.new ≡ rows_put widths.now file.now at step 8 cells.old stride row }
{
    let mut places = [at; 8];
    put_steps(file, &mut places, 0, at, step);
    get_records(file, &places, 0, 5, widths, cells, stride, row);
}

// Their ends, where they have any. Answers the next row.
fn put_ends(
    file: &[u8],
    l: Stride,
    widths: &[u8],
    frames: usize,
    row: usize,
    ends: &mut [u32],
) -> usize
    requires { (l.at + l.step ≤ length file.now)
        × (l.end < l.at + l.step → l.end + (7 * l.step + (5 + sum widths.now)) ≤ length file.now)
        × Roomy widths.now ends.old 1 frames
        × (row + 8 ≤ frames) }
    ensures { let on = ltb l.end (l.at + l.step) in
        (ends.new ≡ cond on (rows_put widths.now file.now l.end l.step 8 ends.old frames row) ends.old)
        × (result ≡ cond on (row + 8) row) }
{
    let e = l.end;
    let next = l.at + l.step;
    if e < next {
        put_stepped(file, e, l.step, widths, ends, frames, row);
        return row + 8;
    }
    row
}

// All of them. Answers what was seen then.
pub fn leap(
    file: &[u8],
    l: Stride,
    s: Seen,
    widths: &[u8],
    k: Known,
    ids: &mut [u32],
    starts: &mut [u32],
    ends: &mut [u32],
    item_offsets: &mut [u32],
    fod_offsets: &mut [u32],
    whispy_offsets: &mut [u32],
    stadium_offsets: &mut [u32],
) -> Seen
    requires { let q = plan_in k widths.now in
        (l.at + 8 * l.step ≤ length file.now)
        × (5 + sum q.start ≤ l.step)
        × (l.end < l.at + l.step → l.end + (7 * l.step + (5 + sum q.end)) ≤ length file.now)
        × Roomy q.start starts.old 1 q.counts.frames
        × Roomy q.end ends.old 1 q.counts.frames
        × (s.opened.frames ≤ 1048576)
        × (s.next.starts + 8 ≤ q.counts.frames)
        × (s.next.ends + 8 ≤ q.counts.frames)
        × Parted k.borders widths.now }
    ensures { let q = plan_in k widths.now in
        let on = ltb l.end (l.at + l.step) in
        let n = s.opened.frames in
        (result ≡ seen_then file.now l.at l.step on 8 s)
        × (ids.new ≡ ids_put file.now l.at l.step 8 n ids.old)
        × (starts.new ≡ rows_put q.start file.now l.at l.step 8 starts.old q.counts.frames s.next.starts)
        × (ends.new ≡ cond on (rows_put q.end file.now l.end l.step 8 ends.old q.counts.frames s.next.ends) ends.old)
        × (item_offsets.new ≡ offsets_put q.has_item 8 n s.next.items item_offsets.old)
        × (fod_offsets.new ≡ offsets_put q.has_stage 8 n s.next.fods fod_offsets.old)
        × (whispy_offsets.new ≡ offsets_put q.has_stage 8 n s.next.whispys whispy_offsets.old)
        × (stadium_offsets.new ≡ offsets_put q.has_stage 8 n s.next.stadiums stadium_offsets.old) }
{
    let n = s.opened.frames;
    let c = k.course;
    let frames = c.counts.frames;
    let b = k.borders;
    let end = b.start;
    let item = b.end;
    put_ids(file, l.at, l.step, n, ids);
    put_stepped(
        file,
        l.at,
        l.step,
        &widths[..end],
        starts,
        frames,
        s.next.starts,
    );
    let next_end = put_ends(file, l, &widths[end..item], frames, s.next.ends, ends);
    put_offsets(k.item, n, s.next.items, item_offsets);
    put_offsets(k.stage, n, s.next.fods, fod_offsets);
    put_offsets(k.stage, n, s.next.whispys, whispy_offsets);
    put_offsets(k.stage, n, s.next.stadiums, stadium_offsets);
    let id = wire::get_be(file, l.at + 7 * l.step + 1, 4);
    Seen {
        opened: Open { frames: n + 8, id },
        next: Next {
            starts: s.next.starts + 8,
            ends: next_end,
            items: s.next.items,
            fods: s.next.fods,
            whispys: s.next.whispys,
            stadiums: s.next.stadiums,
        },
    }
}
