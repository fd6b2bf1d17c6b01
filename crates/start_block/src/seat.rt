// The players' bytes in the start block.
ghost use Rattle.std.specs.Prelude.{◌≡◌, false, map, ◌+◌, ◌<◌, ◌≤◌, length};
ghost use Rattle.wire.specs.Wire.{keep};
ghost use Rattle.start.specs.Length.{length_of};
ghost use Rattle.format.specs.Mark.{yes};
ghost use Rattle.format.specs.Refusal.{one_of};
ghost use Rattle.start.specs.Refusal.{text_too_long, text_holds_zero, bad_seat};
ghost use Rattle.patch.specs.Inner.{Patched};
ghost use Rattle.start.specs.Block.{player_fields, text_fields, port_fields, seats_fields};

use super::field::{put_number, put_text};
use format::version::Version;
use game::start::Seat;
use patch::{put_numbers, width_if};
use start::gate::Gate;

const PLAYER_OFFSETS: [usize; 14] = [0, 1, 2, 3, 7, 8, 9, 12, 15, 16, 18, 24, 28, 32];

// What every version writes of a player, from `at` on. A width of 0 writes nothing.
fn put_player(block: &mut [u8], at: usize, p: Seat)
    requires { at + 36 ≤ length block.old }
    ensures { Patched block.old block.new (player_fields at p) }
{
    let team = width_if(p.team.given != 0);
    let level = width_if(p.kind == 1);
    let widths = [1usize, 1, 1, 1, team, 1, team, 1, level, 2, 2, 4, 4, 4];
    let values = [
        p.character as u32,
        p.kind as u32,
        p.stocks as u32,
        p.costume as u32,
        p.team.shade as u32,
        p.handicap as u32,
        p.team.color as u32,
        p.bitfield as u32,
        p.cpu_level.value as u32,
        p.damage_start as u32,
        p.damage_spawn as u32,
        p.offense_ratio,
        p.defense_ratio,
        p.model_scale,
    ];
    put_numbers(block, at, &PLAYER_OFFSETS, &widths, &values);
}

// The texts that v writes of the player of port n.
fn put_texts(block: &mut [u8], v: Version, n: usize, p: Seat)
    requires { (n < 4) × (length_of v ≤ length block.old) × (text_too_long v p ≡ false) × (text_holds_zero v p ≡ false) }
    ensures { Patched block.old block.new (text_fields v n p) }
{
    let netplay = p.netplay;
    put_text(block, v, Gate::TAG, 352 + 16 * n, 16, p.name_tag);
    put_text(block, v, Gate::NETPLAY, 420 + 31 * n, 31, netplay.name);
    put_text(block, v, Gate::NETPLAY, 544 + 10 * n, 10, netplay.code);
    put_text(block, v, Gate::SUID, 584 + 29 * n, 29, netplay.suid);
}

// What v writes of the player of port n.
fn put_port(block: &mut [u8], v: Version, n: usize, p: Seat)
    requires { (n < 4) × (length_of v ≤ length block.old) × (text_too_long v p ≡ false) × (text_holds_zero v p ≡ false) }
    ensures { Patched block.old block.new (port_fields v n p) }
{
    put_player(block, 100 + 36 * n, p);
    put_number(block, v, Gate::UCF, 320 + 8 * n, 4, p.ucf.dash_back);
    put_number(block, v, Gate::UCF, 324 + 8 * n, 4, p.ucf.shield_drop);
    put_texts(block, v, n, p);
}

// The same, where there is a player.
fn put_seat(block: &mut [u8], v: Version, n: usize, p: Seat)
    requires { (n < 4) × (length_of v ≤ length block.old) × (bad_seat v p ≡ false) }
    ensures { Patched block.old block.new (keep (yes p.given) (port_fields v n p)) }
{
    if p.given != 0 {
        put_port(block, v, n, p);
    }
}

pub fn put_seats(block: &mut [u8], v: Version, seats: [Seat; 4])
    requires { (length_of v ≤ length block.old) × (one_of (map (bad_seat v) seats) ≡ false) }
    ensures { Patched block.old block.new (seats_fields v 0 seats) }
{
    for n in 0..4 {
        let p = seats[n];
        put_seat(block, v, n, p);
    }
}
