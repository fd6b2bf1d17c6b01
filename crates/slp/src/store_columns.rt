// What a caller asks before it lays out a store, and before it steps through a file.
ghost use Rattle.std.specs.Prelude.{◌≡◌};
ghost use Rattle.head.specs.Table.{table_of, first_place};
ghost use Rattle.slp.specs.Columns.{store_columns};

use format::version::Version;
use rows_run::family::family_of;

// How many columns a family's store has in a version: none where there is no such family.
#[unsafe(no_mangle)]
pub extern "C" fn slp_columns(version: Version, family: u8) -> usize
    ensures { result ≡ store_columns version family }
{
    if 7 < family {
        return 0;
    }
    layout::listing::columns(family_of(family), version)
}

// Where a replay's events start: after its payload table.
#[unsafe(no_mangle)]
pub extern "C" fn slp_first_place(file: &[u8]) -> usize
    ensures { result ≡ first_place (table_of file.now) }
{
    head::table::first_place(file)
}
