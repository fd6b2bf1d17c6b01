// The games of the cases: all fields and cells 0, all marks of a start's own fields set.
ghost use Rattle.std.specs.Prelude.{◌≡◌};
ghost use Rattle.game.specs.Zero.{no_text, no_seat};
ghost use Rattle.case_table.specs.Games.{plain_start, plain_frames, game_of};

use format::version::Version;
use game::Game;
use game::end::End;
use game::frames::{Counts, Frames, PortColumn};
use game::start::{Match, Netplay, Optional, Scene, Seat, Start, Team, Text, Ucf};

fn no_text() -> Text
    ensures { result ≡ no_text }
{
    Text {
        bytes: [0u8; 50],
        len: 0,
    }
}

// Nobody sits there.
fn no_seat() -> Seat
    ensures { result ≡ no_seat }
{
    let text = no_text();
    Seat {
        given: 0,
        character: 0,
        kind: 0,
        stocks: 0,
        costume: 0,
        team: Team {
            given: 0,
            color: 0,
            shade: 0,
        },
        handicap: 0,
        bitfield: 0,
        cpu_level: Optional { given: 0, value: 0 },
        damage_start: 0,
        damage_spawn: 0,
        offense_ratio: 0,
        defense_ratio: 0,
        model_scale: 0,
        ucf: Ucf {
            given: 0,
            dash_back: 0,
            shield_drop: 0,
        },
        name_tag_given: 0,
        name_tag: text,
        netplay: Netplay {
            given: 0,
            name: text,
            code: text,
            suid_given: 0,
            suid: text,
        },
    }
}

fn plain_start() -> Start
    ensures { result ≡ plain_start }
{
    let seat = no_seat();
    let byte = Optional { given: 1, value: 0 };
    Start {
        bitfield: [0u8; 4],
        is_raining_bombs: 0,
        is_teams: 0,
        item_spawn_frequency: 0,
        self_destruct_score: 0,
        stage: 0,
        timer: 0,
        item_spawn_bitfield: [0u8; 5],
        damage_ratio: 0,
        seats: [seat; 4],
        random_seed: 0,
        is_pal: byte,
        is_frozen_ps: byte,
        scene: Scene {
            given: 1,
            minor: 0,
            major: 0,
        },
        language: byte,
        match_info: Match {
            given: 1,
            tail: 0,
            id: no_text(),
            game: 0,
            tiebreaker: 0,
        },
    }
}

// Each port column has a leader at port 0.
fn plain_frames(v: Version, frames: usize, ports: usize) -> Frames
    ensures { result ≡ plain_frames v frames ports }
{
    let none = PortColumn {
        port: 0,
        follower: 0,
        leader_presence: 0,
        follower_presence: 0,
    };
    Frames {
        version: v,
        counts: Counts {
            frames,
            items: 0,
            fods: 0,
            whispys: 0,
            stadiums: 0,
        },
        ports: [none; 4],
        port_count: ports,
    }
}

// A game of so many frames and port columns, with an end or none, and with codes of some actual size, or none.
pub fn game(v: Version, frames: usize, ports: usize, end: u8, codes: u8, actual: u32) -> Game
    ensures { result ≡ game_of v frames ports end codes actual }
{
    Game {
        frames: plain_frames(v, frames, ports),
        start: plain_start(),
        end: End {
            given: end,
            method: 0,
            initiator: 0xff,
            placed: [0u8; 4],
            placements: [0u8; 4],
        },
        double_end: 0,
        codes_given: codes,
        metadata_given: 0,
        actual_size: actual,
    }
}
