// A block's players.
ghost use Rattle.std.specs.Prelude.{◌≡◌, [], ◌∷◌, ◌+◌, ◌*◌, ◌<◌, ◌≤◌, eqb, length};
ghost use Rattle.wire.specs.Wire.{ranged};
ghost use Rattle.format.specs.Mark.{yes};
ghost use Rattle.start.specs.Gate.{reaches, ucf_from};
ghost use Rattle.start.specs.Length.{length_of};
ghost use Rattle.game.specs.Zero.{no_seat};
ghost use Rattle.read_start.specs.Start.{byte_at, team_if, optional_if, ucf_if, netplay_in, player_in, seat_in};

use super::part::{half_at, mark_of};
use super::text::text_if;
use format::version::Version;
use game::start::{Netplay, Optional, Seat, Team, Text, Ucf};
use start::gate::Gate;

// The team, where the game has teams.
fn team_in(block: &[u8], at: usize) -> Team
    requires { (13 ≤ length block.now) × (at + 36 ≤ length block.now) }
    ensures { result ≡ team_if (yes (byte_at block.now 12)) block.now at }
{
    if block[12] != 0 {
        return Team {
            given: 1,
            color: block[at + 9],
            shade: block[at + 7],
        };
    }
    Team {
        given: 0,
        color: 0,
        shade: 0,
    }
}

// The level, of a CPU.
fn level_in(block: &[u8], at: usize) -> Optional
    requires { at + 36 ≤ length block.now }
    ensures { result ≡ optional_if (eqb (byte_at block.now (at + 1)) 1) (byte_at block.now (at + 15)) }
{
    if block[at + 1] == 1 {
        return Optional {
            given: 1,
            value: block[at + 15],
        };
    }
    Optional { given: 0, value: 0 }
}

fn ucf_in(block: &[u8], v: Version, n: usize) -> Ucf
    requires { (n < 4) × (length_of v ≤ length block.now) }
    ensures { result ≡ ucf_if (reaches v ucf_from) block.now n }
{
    if Gate::UCF.reached(v) {
        return Ucf {
            given: 1,
            dash_back: wire::get_be(block, 320 + 8 * n, 4),
            shield_drop: wire::get_be(block, 324 + 8 * n, 4),
        };
    }
    Ucf {
        given: 0,
        dash_back: 0,
        shield_drop: 0,
    }
}

fn netplay_in(block: &[u8], v: Version, n: usize) -> Netplay
    requires { (n < 4) × (length_of v ≤ length block.now) }
    ensures { result ≡ netplay_in v block.now n }
{
    Netplay {
        given: mark_of(v, Gate::NETPLAY),
        name: text_if(block, v, Gate::NETPLAY, 420 + 31 * n, 30),
        code: text_if(block, v, Gate::NETPLAY, 544 + 10 * n, 9),
        suid_given: mark_of(v, Gate::SUID),
        suid: text_if(block, v, Gate::SUID, 584 + 29 * n, 28),
    }
}

// A player who is there.
fn player_in(block: &[u8], v: Version, n: usize) -> Seat
    requires { (n < 4) × (320 ≤ length block.now) × (length_of v ≤ length block.now) }
    ensures { result ≡ player_in v block.now n }
{
    let at = 100 + 36 * n;
    Seat {
        given: 1,
        character: block[at],
        kind: block[at + 1],
        stocks: block[at + 2],
        costume: block[at + 3],
        team: team_in(block, at),
        handicap: block[at + 8],
        bitfield: block[at + 12],
        cpu_level: level_in(block, at),
        damage_start: half_at(block, at + 16),
        damage_spawn: half_at(block, at + 18),
        offense_ratio: wire::get_be(block, at + 24, 4),
        defense_ratio: wire::get_be(block, at + 28, 4),
        model_scale: wire::get_be(block, at + 32, 4),
        ucf: ucf_in(block, v, n),
        name_tag_given: mark_of(v, Gate::TAG),
        name_tag: text_if(block, v, Gate::TAG, 352 + 16 * n, 16),
        netplay: netplay_in(block, v, n),
    }
}

// Nobody sits there.
pub fn no_seat() -> Seat
    ensures { result ≡ no_seat }
{
    let none = Text {
        bytes: [0u8; 50],
        len: 0,
    };
    Seat {
        given: 0,
        character: 0,
        kind: 0,
        stocks: 0,
        costume: 0,
        team: Team {
            given: 0,
            color: 0,
            shade: 0,
        },
        handicap: 0,
        bitfield: 0,
        cpu_level: Optional { given: 0, value: 0 },
        damage_start: 0,
        damage_spawn: 0,
        offense_ratio: 0,
        defense_ratio: 0,
        model_scale: 0,
        ucf: Ucf {
            given: 0,
            dash_back: 0,
            shield_drop: 0,
        },
        name_tag_given: 0,
        name_tag: none,
        netplay: Netplay {
            given: 0,
            name: none,
            code: none,
            suid_given: 0,
            suid: none,
        },
    }
}

// A seat of type 3 is empty.
fn seat_in(block: &[u8], v: Version, n: usize) -> Seat
    requires { (n < 4) × (320 ≤ length block.now) × (length_of v ≤ length block.now) }
    ensures { result ≡ seat_in v block.now n }
{
    if block[101 + 36 * n] == 3 {
        return no_seat();
    }
    player_in(block, v, n)
}

pub fn seats_in(block: &[u8], v: Version) -> [Seat; 4]
    requires { (320 ≤ length block.now) × (length_of v ≤ length block.now) }
    ensures { result ≡ ranged (λ n. seat_in v block.now n ∷ []) 0 4 }
{
    [
        seat_in(block, v, 0),
        seat_in(block, v, 1),
        seat_in(block, v, 2),
        seat_in(block, v, 3),
    ]
}
