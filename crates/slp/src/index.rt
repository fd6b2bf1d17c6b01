// The index of a replay, and an id looked up in it, as their crates give them. An id is an i32 by its bits.
ghost use Rattle.std.specs.Prelude.{◌≡◌};
ghost use Rattle.index_form.specs.Find.{moment_in};
ghost use Rattle.index_calls.specs.Index.{WriteIndexOutcome, AcceptOutcome};

use index_calls::{Accepted, Written};
use index_form::Moment;

#[unsafe(no_mangle)]
pub extern "C" fn slp_write_index(file: &[u8], out: &mut [u8]) -> Written
    ensures { WriteIndexOutcome file.now out.old result out.new }
{
    index_calls::write_index(file, out)
}

#[unsafe(no_mangle)]
pub extern "C" fn slp_accepts_index(file: &[u8], index: &[u8]) -> Accepted
    ensures { AcceptOutcome file.now index.now result }
{
    index_calls::accepts_index(file, index)
}

#[unsafe(no_mangle)]
pub extern "C" fn slp_find_frame(index: &[u8], id: u32) -> Moment
    ensures { result ≡ moment_in index.now id }
{
    index_form::find_frame(index, id)
}
