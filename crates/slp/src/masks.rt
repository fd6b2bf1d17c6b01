// The rollback masks.
ghost use Rattle.slp.specs.Outcomes.{MaskOutcome};

use answers::by_number;
use answers::mask::{mask_number, rollbacks_of};

// 0 where the mask is written, else the refusal's number.
#[unsafe(no_mangle)]
pub extern "C" fn slp_rollbacks(ids: &[u32], keep: u8, mask: &mut [u8], scratch: &mut [u8]) -> u8
    ensures { MaskOutcome ids.now keep mask.old scratch.old result mask.new scratch.new }
{
    mask_number(by_number(rollback::rollbacks(ids, rollbacks_of(keep), mask, scratch)))
}
