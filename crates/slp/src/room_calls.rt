// How much room to reserve.
ghost use Rattle.std.specs.Prelude.{◌≡◌};
ghost use Rattle.room.specs.Room.{reserved};

use room::{Plan, Reserved};

#[unsafe(no_mangle)]
pub extern "C" fn slp_room(p: Plan) -> Reserved
    ensures { result ≡ reserved p }
{
    room::room(p)
}
