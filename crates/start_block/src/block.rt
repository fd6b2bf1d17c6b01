// The start block's bytes.
ghost use Rattle.std.specs.Prelude.{◌≡◌, false, [], ◌∷◌, ◌≤◌, length};
ghost use Rattle.wire.specs.Wire.{Room, Wrote};
ghost use Rattle.start.specs.Gate.{match_from};
ghost use Rattle.start.specs.Length.{length_of};
ghost use Rattle.start.specs.Refusal.{too_long, holds_zero, bad_start};
ghost use Rattle.patch.specs.Field.{text, zero_inside, read_at};
ghost use Rattle.patch.specs.Inner.{Patched};
ghost use Rattle.start.specs.Block.{game_fields, mode_fields, match_id, match_tail, match_fields, fields, start_block};

use super::field::{put_flag, put_number};
use super::seat::put_seats;
use format::version::Version;
use game::start::{Match, MatchTail, Start, Text};
use patch::{flag_of, put_filled, put_numbers, put_zeros};
use start::gate::Gate;

// Offsets and widths in lists of their own, as `put_numbers` takes them.
const GAME_OFFSETS: [usize; 11] = [0, 1, 2, 10, 12, 15, 16, 18, 20, 52, 316];

const GAME_WIDTHS: [usize; 11] = [1, 1, 1, 1, 1, 1, 1, 2, 4, 4, 4];

// What every version writes of the game.
fn put_game(block: &mut [u8], v: Version, s: Start)
    requires { 320 ≤ length block.old }
    ensures { Patched block.old block.new (game_fields v s) }
{
    let bombs = flag_of(s.is_raining_bombs);
    let teams = flag_of(s.is_teams);
    let values = [
        v.major as u32,
        v.minor as u32,
        v.patch as u32,
        bombs,
        teams,
        s.item_spawn_frequency as u32,
        s.self_destruct_score as u32,
        s.stage as u32,
        s.timer,
        s.damage_ratio,
        s.random_seed,
    ];
    put_numbers(block, 0, &GAME_OFFSETS, &GAME_WIDTHS, &values);
    wire::put_bytes(block, 4, &s.bitfield);
    wire::put_bytes(block, 39, &s.item_spawn_bitfield);
}

// PAL, frozen Stadium, scene and language.
fn put_modes(block: &mut [u8], v: Version, s: Start)
    requires { length_of v ≤ length block.old }
    ensures { Patched block.old block.new (mode_fields v s) }
{
    put_flag(block, v, Gate::PAL, 416, s.is_pal.value);
    put_flag(block, v, Gate::FROZEN, 417, s.is_frozen_ps.value);
    put_number(block, v, Gate::SCENE, 418, 1, s.scene.minor as u32);
    put_number(block, v, Gate::SCENE, 419, 1, s.scene.major as u32);
    put_number(block, v, Gate::LANGUAGE, 700, 1, s.language.value as u32);
}

// The match id ends with one zero. A viewer who reads its 51 bytes up to the first zero reads the id.
fn put_match_id(block: &mut [u8], id: Text)
    requires { (id.len ≤ 50) × (752 ≤ length block.old) × (zero_inside id ≡ false) }
    ensures { Patched block.old block.new (match_id id ∷ []) × (read_at block.new 701 51 ≡ text id) }
{
    let ended = id.len + 1;
    put_filled(block, 701, ended, id);
}

// The bytes after that zero, through 751, for an id of so many bytes.
fn put_match_tail(block: &mut [u8], len: usize, tail: MatchTail)
    requires { (len ≤ 50) × (752 ≤ length block.old) }
    ensures { Patched block.old block.new (match_tail tail len ∷ []) }
{
    match tail {
        MatchTail::Cleared => {
            put_zeros(block, 702 + len, 50 - len);
        }
        MatchTail::Kept => {}
    }
}

// The match.
fn put_match(block: &mut [u8], v: Version, m: Match)
    requires { (length_of v ≤ length block.old) × (too_long v match_from 50 m.id ≡ false) × (holds_zero v match_from m.id ≡ false) }
    ensures { Patched block.old block.new (match_fields v m) }
{
    if Gate::MATCH.reached(v) {
        put_match_id(block, m.id);
        put_match_tail(block, m.id.len, MatchTail::of(m.tail));
        wire::put_u32(block, 752, m.game);
        wire::put_u32(block, 756, m.tiebreaker);
    }
}

// All that v writes, over a block.
fn put_fields(block: &mut [u8], v: Version, s: Start)
    requires { (length_of v ≤ length block.old) × (bad_start v s ≡ false) }
    ensures { Patched block.old block.new (fields v s) }
{
    put_game(block, v, s);
    let seats = s.seats;
    put_seats(block, v, seats);
    put_modes(block, v, s);
    put_match(block, v, s.match_info);
}

// The start block: the template is copied, and patched where it then lies.
pub fn put_block(out: &mut [u8], at: usize, template: &[u8], v: Version, s: Start) -> usize
    requires { (length_of v ≤ length template.now) × (bad_start v s ≡ false) × Room out.old at (start_block v s template.now) }
    ensures { Wrote out.old out.new at result (start_block v s template.now) }
{
    let next = wire::put_bytes(out, at, template);
    put_fields(&mut out[at..next], v, s);
    next
}
