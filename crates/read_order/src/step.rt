// Where a frame stands after an event that may come.
ghost use Rattle.std.specs.Prelude.{◌≡◌, ◌+◌, ◌*◌, ◌^◌, ◌≤◌, ◌<◌};
ghost use Rattle.layout.specs.declared.columns.Family.TheVariants.{Pre, Post};
ghost use Rattle.read_order.specs.Inner.{JoinedAt, Ready, After, RowAfter};

use crate::stage::{Stage, Word};
use layout::columns::Family;

// Those whose Post is to come, after a Pre at `at` that follows their own.
fn with_pre(file: &[u8], span: usize, m: Stage, w: Word, at: usize, next: usize) -> Stage
    requires { JoinedAt file.now span m w at next }
    ensures { After file.now span m w next Pre result }
{
    if m.due == 0 {
        return Stage {
            rank: 2,
            id: w.id,
            pre: at,
            due: 1,
        };
    }
    Stage {
        rank: 2,
        id: w.id,
        pre: m.pre,
        due: m.due + 1,
    }
}

// Those whose Post is to come, after the first one's Post.
fn with_post(file: &[u8], span: usize, m: Stage, w: Word, next: usize) -> Stage
    requires { (0 < m.due) × (m.pre + span < 2 ^ 64) × (m.pre + m.due * span ≤ next) }
    ensures { After file.now span m w next Post result }
{
    Stage {
        rank: 7,
        id: w.id,
        pre: m.pre + span,
        due: m.due - 1,
    }
}

// Those whose Post is to come, after an event of nobody: they stay.
fn with_row(file: &[u8], span: usize, m: Stage, rank: u8, w: Word, next: usize) -> Stage
    requires { (rank ≤ 2 → m.due ≡ 0) × (m.pre + m.due * span ≤ next) }
    ensures { RowAfter file.now span m rank w next result }
{
    Stage {
        rank,
        id: w.id,
        pre: m.pre,
        due: m.due,
    }
}

// The frame after an event that may come, and before the next place.
pub fn moved(
    file: &[u8],
    span: usize,
    m: Stage,
    family: Family,
    w: Word,
    at: usize,
    next: usize,
) -> Stage
    requires { Ready file.now span m w at next family × (m.pre + m.due * span ≤ next) }
    ensures { After file.now span m w next family result }
{
    match family {
        Family::Pre => with_pre(file, span, m, w, at, next),
        Family::Post => with_post(file, span, m, w, next),
        Family::FrameStart => with_row(file, span, m, 1, w, next),
        Family::FodPlatform => with_row(file, span, m, 3, w, next),
        Family::DreamlandWhispy => with_row(file, span, m, 4, w, next),
        Family::StadiumTransformation => with_row(file, span, m, 5, w, next),
        Family::Item => with_row(file, span, m, 6, w, next),
        Family::FrameEnd => with_row(file, span, m, 8, w, next),
    }
}
