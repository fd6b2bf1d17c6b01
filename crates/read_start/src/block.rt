// The start in a block.
ghost use Rattle.std.specs.Prelude.{◌≡◌, ◌≤◌, length};
ghost use Rattle.start.specs.Gate.{reaches, scene_from, match_from};
ghost use Rattle.start.specs.Length.{length_of};
ghost use Rattle.read_start.specs.Start.{scene_if, match_if, start_in, seats_fit};

use super::part::{byte_if, five_at, flag_at, flag_if, four_at, half_at};
use super::seat::seats_in;
use super::text::text_at;
use format::version::Version;
use game::start::{Match, Scene, Start, Text};
use start::gate::Gate;

fn scene_in(block: &[u8], v: Version) -> Scene
    requires { length_of v ≤ length block.now }
    ensures { result ≡ scene_if (reaches v scene_from) block.now }
{
    if Gate::SCENE.reached(v) {
        return Scene {
            given: 1,
            minor: block[418],
            major: block[419],
        };
    }
    Scene {
        given: 0,
        minor: 0,
        major: 0,
    }
}

// The match. Which way the tail of its id was written does not come back: it is kept.
fn match_in(block: &[u8], v: Version) -> Match
    requires { length_of v ≤ length block.now }
    ensures { result ≡ match_if (reaches v match_from) block.now }
{
    if Gate::MATCH.reached(v) {
        return Match {
            given: 1,
            tail: 1,
            id: text_at(block, 701, 50),
            game: wire::get_be(block, 752, 4),
            tiebreaker: wire::get_be(block, 756, 4),
        };
    }
    Match {
        given: 0,
        tail: 0,
        id: Text {
            bytes: [0u8; 50],
            len: 0,
        },
        game: 0,
        tiebreaker: 0,
    }
}

// The start of a whole block.
pub fn start_of(block: &[u8], v: Version) -> Start
    requires { (320 ≤ length block.now) × (length_of v ≤ length block.now) }
    ensures { result ≡ start_in v block.now }
{
    Start {
        bitfield: four_at(block, 4),
        is_raining_bombs: flag_at(block, 10),
        is_teams: flag_at(block, 12),
        item_spawn_frequency: block[15],
        self_destruct_score: block[16],
        stage: half_at(block, 18),
        timer: wire::get_be(block, 20, 4),
        item_spawn_bitfield: five_at(block, 39),
        damage_ratio: wire::get_be(block, 52, 4),
        seats: seats_in(block, v),
        random_seed: wire::get_be(block, 316, 4),
        is_pal: flag_if(block, v, Gate::PAL, 416),
        is_frozen_ps: flag_if(block, v, Gate::FROZEN, 417),
        scene: scene_in(block, v),
        language: byte_if(block, v, Gate::LANGUAGE, 700),
        match_info: match_in(block, v),
    }
}

// Whether a block's seat types are all at most 3.
pub fn types_fit(block: &[u8]) -> bool
    requires { 320 ≤ length block.now }
    ensures { result ≡ seats_fit block.now }
{
    (block[101] <= 3) & (block[137] <= 3) & (block[173] <= 3) & (block[209] <= 3)
}
