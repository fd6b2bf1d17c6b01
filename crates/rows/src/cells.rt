// One record's cells, out of a family's store.
ghost use Rattle.std.specs.Prelude.{◌≡◌, ◌+◌, ◌*◌, ◌≤◌, ◌<◌, length};
ghost use Rattle.layout.specs.Columns.{widths_of};
ghost use Rattle.rows.specs.Cells.{block_cells, row_cells};

use format::version::Version;
use layout::columns::Family;
use layout::listing::widths;

// The cells of a row of a block, in column order: 0 from the last column on. A block has its columns one after another, row after row.
fn block_cells(cells: &[u32], rows: usize, columns: usize, block: usize, row: usize) -> [u32; 32]
    requires { (columns ≤ 32) × (row < rows) × ((block + 1) * columns * rows ≤ length cells.now) }
    ensures { result ≡ block_cells cells.now rows columns block row }
{
    let mut raw = [0u32; 32];
    let first = block * columns;
    for k in 0..columns {
        raw[k] = cells[(first + k) * rows + row];
    }
    raw
}

// A record's cells: the table lists the version's columns, and each has its cell.
pub fn row_cells(
    family: Family,
    version: Version,
    cells: &[u32],
    rows: usize,
    block: usize,
    row: usize,
) -> [u32; 32]
    requires { (row < rows) × ((block + 1) * length (widths_of family version) * rows ≤ length cells.now) }
    ensures { result ≡ row_cells family version cells.now rows block row }
{
    let listing = widths(family, version);
    block_cells(cells, rows, listing.count, block, row)
}
