// What columns, refusals and faults are called.
ghost use Rattle.std.specs.Prelude.{◌≡◌};
ghost use Rattle.names.specs.Names.{worded, fault_worded};
ghost use Rattle.slp.specs.Columns.{store_column};

use names::columns::{Described, column, no_column};
use names::faults::fault_words;
use names::refusals::{Words, refusal_words};
use rows_run::family::family_of;

// Column n of a family's store.
#[unsafe(no_mangle)]
pub extern "C" fn slp_column(family: u8, n: usize) -> Described
    ensures { result ≡ store_column family n }
{
    if 7 < family {
        return no_column();
    }
    column(family_of(family), n)
}

// Why a call was refused.
#[unsafe(no_mangle)]
pub extern "C" fn slp_refusal_words(number: u8) -> Words
    ensures { result ≡ worded number }
{
    refusal_words(number)
}

// Why a file is refused with 19.
#[unsafe(no_mangle)]
pub extern "C" fn slp_fault_words(reason: u8) -> Words
    ensures { result ≡ fault_worded reason }
{
    fault_words(reason)
}
