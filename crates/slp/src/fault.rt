// Why a file is refused with 19, as its crate gives it.
ghost use Rattle.fault_call.specs.Outcome.{FaultOutcome};

use fault_call::Faulted;

#[unsafe(no_mangle)]
pub extern "C" fn slp_fault(file: &[u8]) -> Faulted
    ensures { FaultOutcome file.now result }
{
    fault_call::fault(file)
}
