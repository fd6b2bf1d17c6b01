// The cells of eight rows that follow each other, from records at eight places, column by column: a column's eight cells stand together in their store.
#![tactic(auto)]

ghost use Rattle.std.specs.Prelude.{◌≡◌, ◌+◌, ◌≤◌, [], ◌∷◌, length};
ghost use Rattle.layout.specs.Columns.{sum};
ghost use Rattle.record.specs.Inner.{InStore};
ghost use Rattle.gather.specs.Inner.{rows_at, Reach, Eight};

use record::get_four;

// The eight places that the table has from i on: at hand for all columns, so that no column reads the table again.
fn eight_at(places: &[usize], i: usize) -> [usize; 8]
    requires { i + 8 ≤ length places.now }
    ensures { Eight places.now i result }
{
    let mut at = [0usize; 8];
    at.copy_from_slice(&places[i..i + 8]);
    at
}

// The eight cells of a column, which stand `off` behind the eight places that the table has from i on. Inlined, since a caller knows the width.
#[inline(always)]
fn get_whole(
    file: &[u8],
    places: &[usize],
    i: usize,
    off: usize,
    width: usize,
    cells: &mut [u32],
    first: usize,
)
    requires { (width ≤ 4)
        × (first + 8 ≤ length cells.old)
        × (i + 8 ≤ length places.now)
        × Reach file.now places.now i (off + width) }
    ensures { cells.new ≡ rows_at (width ∷ []) file.now places.now i off 8 cells.old 0 first }
{
    for t in 0..8 {
        let p = places[i + t] + off;
        cells[first + t] = wire::get_be(file, p, width);
    }
}

// The eight cells of a column of any width. Four bytes that end at a cell's end are read, and those above it are dropped: by one number for all eight.
fn get_narrow(
    file: &[u8],
    places: &[usize],
    i: usize,
    off: usize,
    width: usize,
    cells: &mut [u32],
    first: usize,
)
    requires { (width ≤ 4)
        × (4 ≤ off)
        × (first + 8 ≤ length cells.old)
        × (i + 8 ≤ length places.now)
        × Reach file.now places.now i (off + width) }
    ensures { cells.new ≡ rows_at (width ∷ []) file.now places.now i off 8 cells.old 0 first }
{
    let over = 1u64 << (8 * (width as u64));
    let base = off + width - 4;
    for t in 0..8 {
        let p = places[i + t] + base;
        cells[first + t] = ((get_four(file, p) as u64) % over) as u32;
    }
}

// The eight cells of one column, by its width: most have four bytes or one, of which nothing is dropped.
fn get_column(
    file: &[u8],
    places: &[usize],
    i: usize,
    off: usize,
    width: usize,
    cells: &mut [u32],
    first: usize,
)
    requires { (width ≤ 4)
        × (4 ≤ off)
        × (first + 8 ≤ length cells.old)
        × (i + 8 ≤ length places.now)
        × Reach file.now places.now i (off + width) }
    ensures { cells.new ≡ rows_at (width ∷ []) file.now places.now i off 8 cells.old 0 first }
{
    if width == 4 {
        get_whole(file, places, i, off, 4, cells, first);
        return;
    }
    if width == 1 {
        get_whole(file, places, i, off, 1, cells, first);
        return;
    }
    get_narrow(file, places, i, off, width, cells, first);
}

// Eight rows, each as `record::get` reads it, from the bytes `off` behind its place, which stand after a record's head.
pub fn get_records(
    file: &[u8],
    places: &[usize],
    i: usize,
    off: usize,
    widths: &[u8],
    cells: &mut [u32],
    stride: usize,
    first: usize,
)
    requires { (4 ≤ off)
        × (8 ≤ stride)
        × InStore widths.now (length cells.old) stride (first + 7)
        × (i + 8 ≤ length places.now)
        × Reach file.now places.now i (off + sum widths.now) }
    ensures { cells.new ≡ rows_at widths.now file.now places.now i off 8 cells.old stride first }
{
    let at = eight_at(places, i);
    let mut p = off;
    let mut x = first;
    for width in widths {
        let w = wire::wide(*width);
        get_column(file, &at, 0, p, w, cells, x);
        p += w;
        x += stride;
    }
}
