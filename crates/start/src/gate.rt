// What each version adds to the start block.
ghost use Rattle.std.specs.Prelude.{◌≡◌};
ghost use Rattle.start.specs.Gate.{reaches};

use format::version::Version;

// From major.minor on fields are written that make the block so many bytes long.
#[derive(Clone, Copy)]
pub struct Gate {
    pub major: u8,
    pub minor: u8,
    pub bytes: usize,
}

impl Gate {
    pub const UCF: Gate = Gate {
        major: 1,
        minor: 0,
        bytes: 352,
    };

    pub const TAG: Gate = Gate {
        major: 1,
        minor: 3,
        bytes: 416,
    };

    pub const PAL: Gate = Gate {
        major: 1,
        minor: 5,
        bytes: 417,
    };

    pub const FROZEN: Gate = Gate {
        major: 2,
        minor: 0,
        bytes: 418,
    };

    pub const SCENE: Gate = Gate {
        major: 3,
        minor: 7,
        bytes: 420,
    };

    pub const NETPLAY: Gate = Gate {
        major: 3,
        minor: 9,
        bytes: 584,
    };

    pub const SUID: Gate = Gate {
        major: 3,
        minor: 11,
        bytes: 700,
    };

    pub const LANGUAGE: Gate = Gate {
        major: 3,
        minor: 12,
        bytes: 701,
    };

    pub const MATCH: Gate = Gate {
        major: 3,
        minor: 14,
        bytes: 760,
    };

    pub(crate) const NEWEST_FIRST: [Gate; 9] = [
        Gate::MATCH,
        Gate::LANGUAGE,
        Gate::SUID,
        Gate::NETPLAY,
        Gate::SCENE,
        Gate::FROZEN,
        Gate::PAL,
        Gate::TAG,
        Gate::UCF,
    ];

    // Whether v writes the fields.
    pub fn reached(self, v: Version) -> bool
        ensures { result ≡ reaches v self }
    {
        v.gte(self.major, self.minor)
    }
}
