// Rows: an event's bytes into its store's next row.
ghost use Rattle.std.specs.Prelude.{◌≡◌, ◌≤◌, eqb, drop};
ghost use Rattle.read_event.specs.Inner.{Roomy, row_put, row_next, Long, next_after, stage_after};
ghost use Rattle.read_event.specs.Known.{Parted, plan_in};

use super::known::Known;
use super::seen::Next;
use format::event::{
    DREAMLAND_WHISPY, FOD_PLATFORM, FRAME_END, FRAME_START, ITEM, STADIUM_TRANSFORMATION,
};

// A row, where the event is of the family and the store has that row. Answers the next row.
pub fn put_row(
    on: bool,
    file: &[u8],
    at: usize,
    widths: &[u8],
    cells: &mut [u32],
    rows: usize,
    row: usize,
) -> usize
    requires { (4 ≤ at) × Long file.now at on widths.now × Roomy widths.now cells.old 1 rows }
    ensures { (cells.new ≡ row_put on widths.now (drop at file.now) rows row cells.old)
        × (result ≡ row_next on rows row) }
{
    if on {
        if row < rows {
            record::get(file, at, widths, cells, rows, row);
            return row + 1;
        }
    }
    row
}

// The row of a stage's event.
fn put_stage(
    code: u8,
    file: &[u8],
    at: usize,
    widths: &[u8],
    k: Known,
    n: Next,
    fods: &mut [u32],
    whispys: &mut [u32],
    stadiums: &mut [u32],
) -> Next
    requires { let q = plan_in k widths.now in (4 ≤ at)
        × Parted k.borders widths.now
        × (Long file.now at (eqb code 0x3F) q.fod × Roomy q.fod fods.old 1 q.counts.fods)
        × (Long file.now at (eqb code 0x40) q.whispy × Roomy q.whispy whispys.old 1 q.counts.whispys)
        × (Long file.now at (eqb code 0x41) q.stadium × Roomy q.stadium stadiums.old 1 q.counts.stadiums) }
    ensures { let q = plan_in k widths.now in (result ≡ stage_after code q.counts n)
        × (fods.new ≡ row_put (eqb code 0x3F) q.fod (drop at file.now) q.counts.fods n.fods fods.old)
        × (whispys.new ≡ row_put (eqb code 0x40) q.whispy (drop at file.now) q.counts.whispys n.whispys whispys.old)
        × (stadiums.new ≡ row_put (eqb code 0x41) q.stadium (drop at file.now) q.counts.stadiums n.stadiums stadiums.old) }
{
    let t = k.course;
    let c = t.counts;
    let b = k.borders;
    let fod = b.item;
    let whispy = b.fod;
    let stadium = b.whispy;
    let end = b.stadium;
    let e = put_row(
        code == FOD_PLATFORM,
        file,
        at,
        &widths[fod..whispy],
        fods,
        c.fods,
        n.fods,
    );
    let g = put_row(
        code == DREAMLAND_WHISPY,
        file,
        at,
        &widths[whispy..stadium],
        whispys,
        c.whispys,
        n.whispys,
    );
    let h = put_row(
        code == STADIUM_TRANSFORMATION,
        file,
        at,
        &widths[stadium..end],
        stadiums,
        c.stadiums,
        n.stadiums,
    );
    Next {
        fods: e,
        whispys: g,
        stadiums: h,
        ..n
    }
}

// The row of an event whose family has one row an event: its widths and its store come with its code.
pub fn put_rows(
    code: u8,
    file: &[u8],
    at: usize,
    widths: &[u8],
    k: Known,
    n: Next,
    starts: &mut [u32],
    ends: &mut [u32],
    items: &mut [u32],
    fods: &mut [u32],
    whispys: &mut [u32],
    stadiums: &mut [u32],
) -> Next
    requires { let q = plan_in k widths.now in (4 ≤ at)
        × Parted k.borders widths.now
        × (Long file.now at (eqb code 0x3A) q.start × Roomy q.start starts.old 1 q.counts.frames)
        × (Long file.now at (eqb code 0x3C) q.end × Roomy q.end ends.old 1 q.counts.frames)
        × (Long file.now at (eqb code 0x3B) q.item × Roomy q.item items.old 1 q.counts.items)
        × (Long file.now at (eqb code 0x3F) q.fod × Roomy q.fod fods.old 1 q.counts.fods)
        × (Long file.now at (eqb code 0x40) q.whispy × Roomy q.whispy whispys.old 1 q.counts.whispys)
        × (Long file.now at (eqb code 0x41) q.stadium × Roomy q.stadium stadiums.old 1 q.counts.stadiums) }
    ensures { let q = plan_in k widths.now in (result ≡ next_after code q.counts n)
        × (starts.new ≡ row_put (eqb code 0x3A) q.start (drop at file.now) q.counts.frames n.starts starts.old)
        × (ends.new ≡ row_put (eqb code 0x3C) q.end (drop at file.now) q.counts.frames n.ends ends.old)
        × (items.new ≡ row_put (eqb code 0x3B) q.item (drop at file.now) q.counts.items n.items items.old)
        × (fods.new ≡ row_put (eqb code 0x3F) q.fod (drop at file.now) q.counts.fods n.fods fods.old)
        × (whispys.new ≡ row_put (eqb code 0x40) q.whispy (drop at file.now) q.counts.whispys n.whispys whispys.old)
        × (stadiums.new ≡ row_put (eqb code 0x41) q.stadium (drop at file.now) q.counts.stadiums n.stadiums stadiums.old) }
{
    let t = k.course;
    let c = t.counts;
    let b = k.borders;
    let end = b.start;
    let item = b.end;
    let fod = b.item;
    if code == FRAME_START {
        let row = put_row(
            code == FRAME_START,
            file,
            at,
            &widths[..end],
            starts,
            c.frames,
            n.starts,
        );
        return Next { starts: row, ..n };
    }
    if code == FRAME_END {
        let row = put_row(
            code == FRAME_END,
            file,
            at,
            &widths[end..item],
            ends,
            c.frames,
            n.ends,
        );
        return Next { ends: row, ..n };
    }
    if code == ITEM {
        let row = put_row(
            code == ITEM,
            file,
            at,
            &widths[item..fod],
            items,
            c.items,
            n.items,
        );
        return Next { items: row, ..n };
    }
    put_stage(code, file, at, widths, k, n, fods, whispys, stadiums)
}
