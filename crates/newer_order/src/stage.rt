// Where a frame stands after some of its events. The players whose Post is to come are digits of a number.
ghost use Rattle.std.specs.Prelude.{◌≡◌};
ghost use Rattle.grammar.specs.Machine.{initial, closed, in_frame};
ghost use Rattle.read_order.specs.Inner.{said_of};
ghost use Rattle.newer_order.specs.Inner.{newest, state_of, Fair};

use read_order::stage::Word;

// Where a frame stands: the rank of its last event, its id, the slots whose Post is to come, four bits each and the next one lowest,
// how many they are, and while Pres come the least slot that may.
#[derive(Clone, Copy)]
pub struct Stage {
    pub rank: u8,
    pub id: u32,
    pub queue: usize,
    pub due: usize,
    pub least: usize,
}

// No frame began yet.
pub fn outset() -> Stage
    ensures { (state_of result ≡ initial) × Fair result }
{
    Stage {
        rank: 8,
        id: 0,
        queue: 0,
        due: 0,
        least: 0,
    }
}

// Whether the event is of the frame, and no later event of it came.
pub fn is_inside(m: Stage, rank: u8, w: Word) -> bool
    ensures { result ≡ in_frame (state_of m) rank (said_of w) }
{
    (m.rank <= rank) & (m.id == w.id)
}

// Whether a frame may end here.
pub fn is_closed(m: Stage) -> bool
    ensures { result ≡ closed newest (state_of m) }
{
    (m.due == 0) & (m.rank == 8)
}
