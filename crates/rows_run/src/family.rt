// The families by their numbers.
ghost use Rattle.std.specs.Prelude.{◌≡◌};
ghost use Rattle.rows_run.specs.Run.{family_at, of_players};

use layout::columns::Family;

// The families by the number of their store.
pub fn family_of(n: u8) -> Family
    ensures { result ≡ family_at n }
{
    match n {
        0 => Family::FrameStart,
        1 => Family::Pre,
        2 => Family::Post,
        3 => Family::FrameEnd,
        4 => Family::Item,
        5 => Family::FodPlatform,
        6 => Family::DreamlandWhispy,
        _ => Family::StadiumTransformation,
    }
}

// Whether a family's rows are a player's.
pub fn of_players(family: Family) -> bool
    ensures { result ≡ of_players family }
{
    match family {
        Family::Pre => true,
        Family::Post => true,
        Family::FrameStart => false,
        Family::Item => false,
        Family::FrameEnd => false,
        Family::FodPlatform => false,
        Family::DreamlandWhispy => false,
        Family::StadiumTransformation => false,
    }
}
