// What a broken file still holds, as its crate gives it.
ghost use Rattle.repair_call.specs.Outcome.{RepairMeasured, RepairOutcome};

use repair_call::Repaired;

#[unsafe(no_mangle)]
pub extern "C" fn slp_measure_repair(file: &[u8]) -> Repaired
    ensures { RepairMeasured file.now result }
{
    repair_call::measure_repair(file)
}

#[unsafe(no_mangle)]
pub extern "C" fn slp_repair(file: &[u8], out: &mut [u8]) -> Repaired
    ensures { RepairOutcome file.now out.old result out.new }
{
    repair_call::repair(file, out)
}
