// The slots' numbers, two for each port.
ghost use Rattle.players.specs.Inner.{Slotted};
ghost use Rattle.read_event.specs.Inner.{Numbered};

use game::frames::Frames;
use players::slots::Slots;

#[derive(Clone, Copy)]
pub struct Numbers {
    pub count: usize,
    pub of: [u32; 8],
}

pub fn numbers_of(f: Frames, s: Slots) -> Numbers
    requires { Slotted f s }
    ensures { Numbered f result.count result.of }
{
    let mut of = [0u32; 8];
    for k in 0..8 {
        of[k] = 2 * s.ports[k] as u32 + s.followers[k] as u32;
    }
    Numbers { count: s.count, of }
}
