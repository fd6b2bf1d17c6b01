// What starts a game. A mark is a byte: nonzero is yes. Floats and signed numbers are their bits.
ghost use Rattle.std.specs.Prelude.{◌≡◌};
ghost use Rattle.game.specs.MatchTails.{match_tail_number, match_tail_of};

// A text of up to 50 bytes: the first `len` of them.
#[repr(C)]
#[derive(Clone, Copy)]
pub struct Text {
    pub bytes: [u8; 50],
    pub len: usize,
}

// A byte that may be missing.
#[repr(C)]
#[derive(Clone, Copy)]
pub struct Optional {
    pub given: u8,
    pub value: u8,
}

// The team that a player belongs to.
#[repr(C)]
#[derive(Clone, Copy)]
pub struct Team {
    pub given: u8,
    pub color: u8,
    pub shade: u8,
}

// The "Universal Controller Fix" mod.
#[repr(C)]
#[derive(Clone, Copy)]
pub struct Ucf {
    pub given: u8,
    pub dash_back: u32,
    pub shield_drop: u32,
}

// Netplay name, connect code, and Slippi UID.
#[repr(C)]
#[derive(Clone, Copy)]
pub struct Netplay {
    pub given: u8,
    pub name: Text,
    pub code: Text,
    pub suid_given: u8,
    pub suid: Text,
}

// A port's player, who may be missing. `kind` is 0 for a human, 1 for a CPU, 2 for a demo.
#[repr(C)]
#[derive(Clone, Copy)]
pub struct Seat {
    pub given: u8,
    pub character: u8,
    pub kind: u8,
    pub stocks: u8,
    pub costume: u8,
    pub team: Team,
    pub handicap: u8,
    pub bitfield: u8,
    pub cpu_level: Optional,
    pub damage_start: u16,
    pub damage_spawn: u16,
    pub offense_ratio: u32,
    pub defense_ratio: u32,
    pub model_scale: u32,
    pub ucf: Ucf,
    pub name_tag_given: u8,
    pub name_tag: Text,
    pub netplay: Netplay,
}

// Major and minor scene numbers.
#[repr(C)]
#[derive(Clone, Copy)]
pub struct Scene {
    pub given: u8,
    pub minor: u8,
    pub major: u8,
}

// The bytes of a block after the zero that ends its match id, through 751: zeros, or what the template has there.
#[derive(Clone, Copy)]
pub enum MatchTail {
    Cleared = 0,
    Kept = 1,
}

impl MatchTail {
    // As a match carries it.
    pub fn number(self) -> u8
        ensures { result ≡ match_tail_number self }
    {
        self as u8
    }

    // 0 is cleared, every other number kept: a rule with a name, which a bare `from` would not say.
    pub fn of(number: u8) -> MatchTail
        ensures { result ≡ match_tail_of number }
    {
        if number == 0 {
            MatchTail::Cleared
        } else {
            MatchTail::Kept
        }
    }
}

// The match that a game belongs to. `tail` is the number of a `MatchTail`.
#[repr(C)]
#[derive(Clone, Copy)]
pub struct Match {
    pub given: u8,
    pub tail: u8,
    pub id: Text,
    pub game: u32,
    pub tiebreaker: u32,
}

// Seat n is port n.
#[repr(C)]
#[derive(Clone, Copy)]
pub struct Start {
    pub bitfield: [u8; 4],
    pub is_raining_bombs: u8,
    pub is_teams: u8,
    pub item_spawn_frequency: u8,
    pub self_destruct_score: u8,
    pub stage: u16,
    pub timer: u32,
    pub item_spawn_bitfield: [u8; 5],
    pub damage_ratio: u32,
    pub seats: [Seat; 4],
    pub random_seed: u32,
    pub is_pal: Optional,
    pub is_frozen_ps: Optional,
    pub scene: Scene,
    pub language: Optional,
    pub match_info: Match,
}
