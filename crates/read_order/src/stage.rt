// Where a frame stands after some of its events, and what an event says.
ghost use Rattle.std.specs.Prelude.{◌≡◌};
ghost use Rattle.grammar.specs.Machine.{slot_said, player};
ghost use Rattle.read_order.specs.Inner.{said_of, inside, closed_at};

use format::version::Version;
use layout::columns::Family;

// Where a frame stands: the rank of its last event, its id, where its first Pre stands whose Post is to come, and how many those are.
#[derive(Clone, Copy)]
pub struct Stage {
    pub rank: u8,
    pub id: u32,
    pub pre: usize,
    pub due: usize,
}

// What an event says: its frame's id and, of a player's, who it is.
#[derive(Clone, Copy)]
pub struct Word {
    pub id: u32,
    pub port: u32,
    pub follower: u32,
}

// The slot of a player's event.
pub fn slot(w: Word) -> usize
    ensures { result ≡ slot_said (said_of w) }
{
    2 * (w.port as usize) + w.follower as usize
}

// Whether the port is up to 3 and the follower's mark 0 or 1.
pub fn is_player(w: Word) -> bool
    ensures { result ≡ player (said_of w) }
{
    if w.port <= 3 {
        return w.follower <= 1;
    }
    false
}

// Whether the event is of the frame, and no later event of it came.
pub fn is_inside(m: Stage, rank: u8, w: Word) -> bool
    ensures { result ≡ inside m rank w }
{
    if m.rank <= rank {
        return m.id == w.id;
    }
    false
}

// Whether a frame may end here.
pub fn is_closed(v: Version, m: Stage) -> bool
    ensures { result ≡ closed_at v m }
{
    if m.due != 0 {
        return false;
    }
    if Family::FrameEnd.exists(v) {
        return m.rank == 8;
    }
    true
}
