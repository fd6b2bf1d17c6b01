// Values that say nothing, which an answer has where it is refused.
ghost use Rattle.std.specs.Prelude.{◌≡◌};
ghost use Rattle.game.specs.Zero.{no_frames, no_start, no_end, no_game};
ghost use Rattle.measure.specs.Game.{no_places, no_lengths};

use super::Places;
use crate::lengths::Lengths;
use format::version::Version;
use game::Game;
use game::end::End;
use game::frames::{Counts, Frames, PortColumn};
use game::start::{Match, Optional, Scene, Start, Text};
use read_start::seat::no_seat;

pub fn no_places() -> Places
    ensures { result ≡ no_places }
{
    Places {
        block_at: 0,
        block_len: 0,
        tail: 0,
        metadata_at: 0,
        metadata_len: 0,
    }
}

pub fn no_lengths() -> Lengths
    ensures { result ≡ no_lengths }
{
    Lengths {
        ids: 0,
        starts: 0,
        pres: 0,
        posts: 0,
        ends: 0,
        items: 0,
        fods: 0,
        whispys: 0,
        stadiums: 0,
        item_offsets: 0,
        fod_offsets: 0,
        whispy_offsets: 0,
        stadium_offsets: 0,
        presence: 0,
        codes: 0,
    }
}

pub fn no_frames() -> Frames
    ensures { result ≡ no_frames }
{
    let none = PortColumn {
        port: 0,
        follower: 0,
        leader_presence: 0,
        follower_presence: 0,
    };
    Frames {
        version: Version {
            major: 0,
            minor: 0,
            patch: 0,
        },
        counts: Counts {
            frames: 0,
            items: 0,
            fods: 0,
            whispys: 0,
            stadiums: 0,
        },
        ports: [none; 4],
        port_count: 0,
    }
}

pub fn no_end() -> End
    ensures { result ≡ no_end }
{
    End {
        given: 0,
        method: 0,
        initiator: 0,
        placed: [0, 0, 0, 0],
        placements: [0, 0, 0, 0],
    }
}

fn no_start() -> Start
    ensures { result ≡ no_start }
{
    let none = Optional { given: 0, value: 0 };
    let seat = no_seat();
    Start {
        bitfield: [0u8; 4],
        is_raining_bombs: 0,
        is_teams: 0,
        item_spawn_frequency: 0,
        self_destruct_score: 0,
        stage: 0,
        timer: 0,
        item_spawn_bitfield: [0u8; 5],
        damage_ratio: 0,
        seats: [seat; 4],
        random_seed: 0,
        is_pal: none,
        is_frozen_ps: none,
        scene: Scene {
            given: 0,
            minor: 0,
            major: 0,
        },
        language: none,
        match_info: Match {
            given: 0,
            tail: 0,
            id: Text {
                bytes: [0u8; 50],
                len: 0,
            },
            game: 0,
            tiebreaker: 0,
        },
    }
}

pub fn no_game() -> Game
    ensures { result ≡ no_game }
{
    Game {
        frames: no_frames(),
        start: no_start(),
        end: no_end(),
        double_end: 0,
        codes_given: 0,
        metadata_given: 0,
        actual_size: 0,
    }
}
