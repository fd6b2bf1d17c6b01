// Whether a file is sound, as its crate says it.
ghost use Rattle.check_file.specs.Check.{CheckOutcome};

use check_file::Checked;

#[unsafe(no_mangle)]
pub extern "C" fn slp_check(file: &[u8]) -> Checked
    ensures { CheckOutcome file.now result }
{
    check_file::check(file)
}
