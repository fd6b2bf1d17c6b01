// The slots: leader, then follower where there is one, of each port column.
ghost use Rattle.std.specs.Prelude.{◌≡◌, false, [], ◌∷◌, ◌+◌, ◌^◌, ◌≤◌, ◌<◌, length};
ghost use Rattle.game.specs.Frames.{ports_of, slot, port_slots, port_bytes, slots_of, slot_blocks};
ghost use Rattle.players.specs.Inner.{Eight, Grown, Slotted, Modest};
ghost use Rattle.players.specs.Presence.{slots_before, ports_uneven};

use game::frames::{Frames, PortColumn};
use layout::columns::Family;

// How many slots the first k port columns have.
pub fn slots_before(f: Frames, k: usize) -> usize
    requires { k ≤ length (ports_of f) }
    ensures { result ≡ slots_before f k }
{
    let mut n: usize = 0;
    for j in 0..k {
        let p = f.port(j);
        n += 1;
        if p.has_follower() {
            n += 1;
        }
    }
    n
}

// How many slots there are.
pub fn slot_count(f: Frames) -> usize
    ensures { (result ≡ length (slots_of f)) × (result ≤ 8) }
{
    slots_before(f, f.ports_in())
}

// How many blocks a family's store has: Pre and Post have one for each slot.
pub fn blocks(f: Frames, family: Family) -> usize
    ensures { (result ≡ slot_blocks f family) × (result ≤ 8) }
{
    match family {
        Family::Pre => slot_count(f),
        Family::Post => slot_count(f),
        Family::FrameStart => 1,
        Family::Item => 1,
        Family::FrameEnd => 1,
        Family::FodPlatform => 1,
        Family::DreamlandWhispy => 1,
        Family::StadiumTransformation => 1,
    }
}

// The slots' ports and follower numbers, where the presence bytes of each begin, and how many they are. With narrow counts it is small enough to be
// passed by value in a few moves. An array for each number, and how many slots there are: `slot_in`, and `Seated` of the crate places, speak of them by name.
#[derive(Clone, Copy)]
pub struct Slots {
    pub count: usize,
    pub ports: [u8; 8],
    pub followers: [u8; 8],
    pub at: [usize; 8],
    pub len: [u32; 8],
}

impl Slots {
    fn none() -> Slots
        ensures { (result.count ≡ 0) × Eight result }
    {
        Slots {
            count: 0,
            ports: [0; 8],
            followers: [0; 8],
            at: [0; 8],
            len: [0; 8],
        }
    }

    // One slot more.
    fn with(mut self, port: u8, follower: u8, at: usize, len: u32) -> Slots
        requires { (self.count < 8) × Eight self }
        ensures { Grown self result (slot port follower at len ∷ []) }
    {
        let n = self.count;
        self.ports[n] = port;
        self.followers[n] = follower;
        self.at[n] = at;
        self.len[n] = len;
        self.count = n + 1;
        self
    }

    // The slots of a port column more.
    fn with_port(self, p: PortColumn, at: usize) -> Slots
        requires { (self.count < 7) × Eight self × (at + port_bytes p < 2 ^ 32) }
        ensures { Grown self result (port_slots at p) }
    {
        let leader = self.with(p.port, 0, at, p.leader_presence as u32);
        if p.has_follower() {
            return leader.with(
                p.port,
                1,
                at + p.leader_presence,
                p.follower_presence as u32,
            );
        }
        leader
    }
}

// The slots of an input whose presence bytes are counted right.
pub fn slots_of(f: Frames) -> Slots
    requires { Modest f × (ports_uneven f ≡ false) }
    ensures { Slotted f result }
{
    let columns = f.ports_in();
    let mut s = Slots::none();
    let mut at: usize = 0;
    for k in 0..columns {
        let p = f.port(k);
        s = s.with_port(p, at);
        at += p.bytes();
    }
    s
}
