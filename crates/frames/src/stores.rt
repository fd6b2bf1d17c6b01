// Refusals 3 and 4: the lengths of the stores, and the widths of their cells.
ghost use Rattle.std.specs.Prelude.{◌≡◌, false, map, ℕ, ◌+◌, ◌*◌, ◌-◌, ◌^◌, ◌≤◌, leb, length, drop};
ghost use Rattle.wire.specs.Wire.{part};
ghost use Rattle.game.specs.Held.{cells_in};
ghost use Rattle.format.specs.Refusal.{one_of};
ghost use Rattle.frames.specs.Judge.{misfits, stores_misfit, over, columns_exceed, blocks_exceed, exceeds, cells_exceed};
ghost use Rattle.players.specs.Inner.{Modest};
ghost use Rattle.frames.specs.Inner.{run_widths, Whole};

use game::frames::Frames;
use game::stores::Cells;
use layout::columns::Family;
use layout::listing::{Runs, columns, runs_of};
use players::slots::blocks;

// Whether a family's store has another length than its blocks, columns and rows make.
fn store_misfits(f: Frames, family: Family, store: &[u32]) -> bool
    requires { Modest f }
    ensures { result ≡ misfits f family store.now }
{
    let rows = f.rows(family);
    if rows == 0 {
        return store.len() != 0;
    }
    let columns = columns(family, f.version);
    let blocks = blocks(f, family);
    store.len() != blocks * (columns * rows)
}

// The bits that any of the cells from index at on and before index end has: below a power of two exactly where each of them is.
fn united(cells: &[u32], at: usize, end: usize) -> u32
    requires { (at ≤ end) × (end ≤ length cells.now) }
    ensures { (k : ℕ) → leb (2 ^ k) result ≡ one_of (map (leb (2 ^ k)) (part cells.now at (end - at))) }
{
    let mut all: u32 = 0;
    for i in at..end {
        all |= cells[i];
    }
    all
}

// Whether one of those cells exceeds a width. No cell exceeds four bytes, so columns of four need no pass.
fn run_exceeds(cells: &[u32], at: usize, end: usize, width: u8) -> bool
    requires { (at ≤ end) × (end ≤ length cells.now) }
    ensures { result ≡ one_of (map (over width) (part cells.now at (end - at))) }
{
    if 4 <= width {
        return false;
    }
    let limit = 1u32 << (8 * width);
    let bits = united(cells, at, end);
    limit <= bits
}

// Whether a cell of the block at index at exceeds its column's width: the columns of a run have one width, and stand together.
fn block_exceeds(runs: Runs, cells: &[u32], at: usize, rows: usize) -> bool
    requires { Whole runs × (at + length (run_widths runs) * rows ≤ length cells.now) }
    ensures { result ≡ columns_exceed (run_widths runs) rows (drop at cells.now) }
{
    let mut from = at;
    for k in 0..runs.count {
        let width = runs.widths[k];
        let n = runs.lengths[k] as usize;
        let end = from + n * rows;
        if run_exceeds(cells, from, end, width) {
            return true;
        }
        from = end;
    }
    false
}

fn blocks_exceed(runs: Runs, cells: &[u32], blocks: usize, rows: usize) -> bool
    requires { Whole runs × (blocks * (length (run_widths runs) * rows) ≤ length cells.now) }
    ensures { result ≡ blocks_exceed blocks (run_widths runs) rows cells.now }
{
    let mut at: usize = 0;
    for _ in 0..blocks {
        if block_exceeds(runs, cells, at, rows) {
            return true;
        }
        at += runs.columns * rows;
    }
    false
}

// Whether a cell of a family's store exceeds its column's width.
fn store_exceeds(f: Frames, family: Family, store: &[u32]) -> bool
    requires { misfits f family store.now ≡ false }
    ensures { result ≡ exceeds f family store.now }
{
    let rows = f.rows(family);
    if rows == 0 {
        return false;
    }
    let runs = runs_of(family, f.version);
    let blocks = blocks(f, family);
    blocks_exceed(runs, store, blocks, rows)
}

// The stores come one by one, as the C interface lends them, and each stands in a line beside its family: an array of the pairs would have the same lines
// and a loop besides.

// 3: a cell store's length is not columns of this version times rows (times slots).
pub fn stores_misfit(f: Frames, cells: &Cells<'_>) -> bool
    requires { Modest f }
    ensures { result ≡ stores_misfit f (cells_in cells.now) }
{
    let start = store_misfits(f, Family::FrameStart, cells.starts);
    let pre = store_misfits(f, Family::Pre, cells.pres);
    let post = store_misfits(f, Family::Post, cells.posts);
    let end = store_misfits(f, Family::FrameEnd, cells.ends);
    let item = store_misfits(f, Family::Item, cells.items);
    let fod = store_misfits(f, Family::FodPlatform, cells.fods);
    let whispy = store_misfits(f, Family::DreamlandWhispy, cells.whispys);
    let stadium = store_misfits(f, Family::StadiumTransformation, cells.stadiums);
    (cells.ids.len() != f.counts.frames)
        | (start | (pre | (post | (end | (item | (fod | (whispy | stadium)))))))
}

// 4: a cell exceeds its width. The ids have four bytes, and so no limit.
pub fn cells_exceed(f: Frames, cells: &Cells<'_>) -> bool
    requires { stores_misfit f (cells_in cells.now) ≡ false }
    ensures { result ≡ cells_exceed f (cells_in cells.now) }
{
    let start = store_exceeds(f, Family::FrameStart, cells.starts);
    let pre = store_exceeds(f, Family::Pre, cells.pres);
    let post = store_exceeds(f, Family::Post, cells.posts);
    let end = store_exceeds(f, Family::FrameEnd, cells.ends);
    let item = store_exceeds(f, Family::Item, cells.items);
    let fod = store_exceeds(f, Family::FodPlatform, cells.fods);
    let whispy = store_exceeds(f, Family::DreamlandWhispy, cells.whispys);
    let stadium = store_exceeds(f, Family::StadiumTransformation, cells.stadiums);
    start | (pre | (post | (end | (item | (fod | (whispy | stadium))))))
}
