// The players whose Post is to come. They are not stored: they are the Pre events at a place of the file, one after another.
ghost use Rattle.std.specs.Prelude.{◌≡◌, ◌+◌, ◌*◌, ◌≤◌, ◌<◌, length};
ghost use Rattle.grammar.specs.WellFormed.{anyhow, may_precede, may_come};
ghost use Rattle.read_order.specs.Inner.{order_of, slot_at, due_in};

// Ports ascend, or come in any order.
#[derive(Clone, Copy)]
pub enum PortOrder {
    Ascending,
    Anyhow,
}

// The slot of the player's event at `at`.
pub fn slot_at(file: &[u8], at: usize) -> usize
    requires { at + 6 < length file.now }
    ensures { (result ≡ slot_at file.now at) × (result < 1024) }
{
    2 * wire::wide(file[at + 5]) + wire::wide(file[at + 6])
}

// Whether slot j may stand before slot k, right before it or not, with the ports in any order.
fn stands_anyhow(right: bool, j: usize, k: usize) -> bool
    ensures { result ≡ may_precede anyhow right j k }
{
    if j / 2 != k / 2 {
        return true;
    }
    right & (j < k)
}

// Whether slot j may stand before slot k, right before it or not.
fn stands_before(order: PortOrder, right: bool, j: usize, k: usize) -> bool
    ensures { result ≡ may_precede (order_of order) right j k }
{
    match order {
        PortOrder::Ascending => j < k,
        PortOrder::Anyhow => stands_anyhow(right, j, k),
    }
}

// Whether slot k may come after those that are due.
pub fn may_come(
    file: &[u8],
    order: PortOrder,
    span: usize,
    pre: usize,
    due: usize,
    k: usize,
) -> bool
    requires { (7 ≤ span) × (pre + due * span ≤ length file.now) }
    ensures { result ≡ may_come (order_of order) (due_in file.now span pre due) k }
{
    let mut p = pre;
    for n in (0..due).rev() {
        let j = slot_at(file, p);
        if !stands_before(order, n == 0, j, k) {
            return false;
        }
        p += span;
    }
    true
}
