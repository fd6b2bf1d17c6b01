// An event of a frame.
ghost use Rattle.std.specs.Prelude.{◌≡◌, ◌+◌, ◌*◌, ◌^◌, ◌≤◌, ◌<◌, length, get_or};
ghost use Rattle.grammar.specs.Machine.{family_of};
ghost use Rattle.read_order.specs.Inner.{state_in};
ghost use Rattle.read_scan.specs.Inner.{kind_of, sizes_in};
ghost use Rattle.read_scan.specs.declared.event.Kind.TheVariants.{Frame};
ghost use Rattle.fault_reason.specs.Reason.{row_reason};
ghost use Rattle.fault_scan.specs.declared.row.Row.TheVariants as row;
ghost use Rattle.fault_scan.specs.Inner.{ev_at, Here, Known, RowOf};

use fault_reason::rows::row_reason;
use format::version::Version;
use layout::columns::Family;
use read_judge::parts::changing;
use read_order::due::PortOrder;
use read_order::stage::Stage;
use read_scan::event::{Turn, try_event};
use read_scan::tally::{Tally, counted};

// It came, or it may not.
#[derive(Clone, Copy)]
pub enum Row {
    Goes { stage: Stage, tally: Tally },
    Wrong { reason: u8 },
}

// Why the event from a place to the next may not come.
fn wrong(
    file: &[u8],
    v: Version,
    span: usize,
    m: Stage,
    family: Family,
    at: usize,
    next: usize,
) -> Row
    requires { (7 ≤ span) × (m.pre + m.due * span ≤ length file.now) × (at < next) × (next ≤ length file.now) }
    ensures { result ≡ row.Wrong (row_reason v (state_in file.now span m) family (ev_at file.now at next)) }
{
    let reason = row_reason(file, &file[at + 1..next], v, span, m, family, file[at]);
    Row::Wrong { reason }
}

// The event of a frame's family from a place to the next.
pub fn row_turn(
    file: &[u8],
    spans: &[u32],
    v: Version,
    sizes: &[usize],
    span: usize,
    stop: usize,
    m: Stage,
    t: Tally,
    family: Family,
    at: usize,
    next: usize,
) -> Row
    requires { Here v file.now spans.now span stop at next × Known v file.now span stop m t at × (sizes.now ≡ sizes_in v)
        × (kind_of (family_of (get_or file.now at 0)) ≡ Frame family) × (next < at + 2 ^ 32) }
    ensures { RowOf v file.now span stop (state_in file.now span m) t family (ev_at file.now at next) next result }
{
    let turn = try_event(
        file,
        v,
        sizes,
        PortOrder::Ascending,
        span,
        stop,
        m,
        at,
        next - at,
        family,
    );
    let Turn::Goes {
        stage,
        next: _,
        word,
    } = turn
    else {
        return wrong(file, v, span, m, family, at, next);
    };
    let tally = counted(t, m, family, word);
    if changing(v, tally) {
        return Row::Goes { stage, tally };
    }
    wrong(file, v, span, m, family, at, next)
}
