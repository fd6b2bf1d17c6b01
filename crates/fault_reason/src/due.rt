// Whether a player's Post is to come.
ghost use Rattle.std.specs.Prelude.{◌≡◌, ◌+◌, ◌*◌, ◌≤◌, length};
ghost use Rattle.read_order.specs.Inner.{due_in};
ghost use Rattle.fault_reason.specs.Reason.{is_due};

use read_order::due::slot_at;

// Whether slot k is among those that are due.
pub fn is_due(file: &[u8], span: usize, pre: usize, due: usize, k: usize) -> bool
    requires { (7 ≤ span) × (pre + due * span ≤ length file.now) }
    ensures { result ≡ is_due (due_in file.now span pre due) k }
{
    let mut p = pre;
    let mut n = due;
    while 0 < n {
        let j = slot_at(file, p);
        if j == k {
            return true;
        }
        p += span;
        n -= 1;
    }
    false
}
