// The version of a replay.
ghost use Rattle.std.specs.Prelude.{◌≡◌};
ghost use Rattle.format.specs.Version.{version, gte_of, has_codes, has_initiator, has_placements, accepted_of};

#[repr(C)]
#[derive(Clone, Copy, PartialEq, PartialOrd)]
pub struct Version {
    pub major: u8,
    pub minor: u8,
    pub patch: u8,
}

impl Version {
    // The newest version that is written: what a newer one adds would be lost.
    pub const NEWEST: Version = Version {
        major: 3,
        minor: 18,
        patch: 0,
    };

    pub fn new(major: u8, minor: u8, patch: u8) -> Version
        ensures { result ≡ version major minor patch }
    {
        Version {
            major,
            minor,
            patch,
        }
    }

    // Whether this is major.minor or newer.
    pub fn gte(self, major: u8, minor: u8) -> bool
        ensures { result ≡ gte_of self major minor }
    {
        (major, minor) <= (self.major, self.minor)
    }

    // Whether codes may be given.
    pub fn has_codes(self) -> bool
        ensures { result ≡ has_codes self }
    {
        self.gte(3, 3)
    }

    // Whether an end says who ended the game.
    pub fn has_initiator(self) -> bool
        ensures { result ≡ has_initiator self }
    {
        self.gte(2, 0)
    }

    // Whether an end says the placements.
    pub fn has_placements(self) -> bool
        ensures { result ≡ has_placements self }
    {
        self.gte(3, 13)
    }

    // Whether this is not above the newest version, in all three numbers.
    pub fn accepted(self) -> bool
        ensures { result ≡ accepted_of self }
    {
        self <= Version::NEWEST
    }
}
