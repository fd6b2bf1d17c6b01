// What a pass counts: frames, rows, who was ever there, and whether neighbouring ids differ.
ghost use Rattle.std.specs.Prelude.{◌≡◌, true, ◌<◌};
ghost use Rattle.layout.specs.declared.columns.Family.TheVariants.{Pre};
ghost use Rattle.grammar.specs.Machine.{slot_said, player};
ghost use Rattle.read_order.specs.Inner.{said_of};
ghost use Rattle.read_scan.specs.Counts.{no_tally, begun_at, sat, counted_of, Room};

use layout::columns::Family;
use read_order::stage::{Stage, Word, is_inside, slot};

// How many frames and rows there were, a bit for each of the eight slots that ever had a Pre, and whether neighbouring frames had unlike ids.
#[derive(Clone, Copy)]
pub struct Tally {
    pub frames: usize,
    pub items: usize,
    pub fods: usize,
    pub whispys: usize,
    pub stadiums: usize,
    pub slots: usize,
    pub changing: bool,
}

// Nothing was counted yet.
pub fn nothing() -> Tally
    ensures { result ≡ no_tally }
{
    Tally {
        frames: 0,
        items: 0,
        fods: 0,
        whispys: 0,
        stadiums: 0,
        slots: 0,
        changing: true,
    }
}

// A frame of this id begins, after one of an old id.
pub fn begun(t: Tally, old: u32, id: u32) -> Tally
    requires { Room t }
    ensures { result ≡ begun_at t old id }
{
    Tally {
        frames: t.frames + 1,
        changing: t.changing & ((t.frames == 0) | (old != id)),
        ..t
    }
}

// A frame of this id begins, after one that was counted: then the first frame is behind.
pub fn begun_next(t: Tally, old: u32, id: u32) -> Tally
    requires { Room t × (0 < t.frames) }
    ensures { result ≡ begun_at t old id }
{
    Tally {
        frames: t.frames + 1,
        changing: t.changing & (old != id),
        ..t
    }
}

// A player is there.
fn with_player(t: Tally, w: Word) -> Tally
    requires { player (said_of w) ≡ true }
    ensures { result ≡ sat t (slot_said (said_of w)) }
{
    Tally {
        slots: t.slots | (1usize << slot(w)),
        ..t
    }
}

// A Pre came: it is of the frame, or begins one.
fn with_pre(t: Tally, m: Stage, w: Word) -> Tally
    requires { Room t × (player (said_of w) ≡ true) }
    ensures { result ≡ counted_of t m.rank m.id Pre (said_of w) }
{
    if is_inside(m, 2, w) {
        return with_player(t, w);
    }
    with_player(begun(t, m.id, w.id), w)
}

// What is counted after an event that was taken where a frame stood.
#[tactic(auto, unfolding(crate::specs::Counts::counted_of))]
pub fn counted(t: Tally, m: Stage, family: Family, w: Word) -> Tally
    requires { Room t × (family ≡ Pre → player (said_of w) ≡ true) }
    ensures { result ≡ counted_of t m.rank m.id family (said_of w) }
{
    match family {
        Family::Pre => with_pre(t, m, w),
        Family::FrameStart => begun(t, m.id, w.id),
        Family::FodPlatform => Tally {
            fods: t.fods + 1,
            ..t
        },
        Family::DreamlandWhispy => Tally {
            whispys: t.whispys + 1,
            ..t
        },
        Family::StadiumTransformation => Tally {
            stadiums: t.stadiums + 1,
            ..t
        },
        Family::Item => Tally {
            items: t.items + 1,
            ..t
        },
        Family::Post | Family::FrameEnd => t,
    }
}
