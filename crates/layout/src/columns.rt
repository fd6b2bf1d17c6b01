// The one table of columns.
ghost use Rattle.std.specs.Prelude.{◌≡◌};
ghost use Rattle.layout.specs.Columns.{first_version, has_family};
ghost use Rattle.layout.specs.Inner.{column_of, first_column, count_of};

use format::version::Version;

#[derive(Clone, Copy)]
pub enum Family {
    Pre,
    Post,
    FrameStart,
    Item,
    FrameEnd,
    FodPlatform,
    DreamlandWhispy,
    StadiumTransformation,
}

impl Family {
    // The first version with records of this family; its columns may come later.
    pub fn first_version(self) -> Version
        ensures { result ≡ first_version self }
    {
        match self {
            Family::Pre | Family::Post => Version::new(0, 0, 0),
            Family::FrameStart => Version::new(2, 2, 0),
            Family::Item | Family::FrameEnd => Version::new(3, 0, 0),
            Family::FodPlatform | Family::DreamlandWhispy | Family::StadiumTransformation =>
                Version::new(3, 18, 0),
        }
    }

    pub fn exists(self, v: Version) -> bool
        ensures { result ≡ has_family v self }
    {
        let first = self.first_version();
        v.gte(first.major, first.minor)
    }

    // Where its columns begin in the table.
    pub fn first(self) -> usize
        ensures { result ≡ first_column self }
    {
        match self {
            Family::Pre => 0,
            Family::Post => 19,
            Family::FrameStart => 51,
            Family::Item => 53,
            Family::FrameEnd => 69,
            Family::FodPlatform => 70,
            Family::DreamlandWhispy => 72,
            Family::StadiumTransformation => 73,
        }
    }

    // How many columns it ever had.
    pub fn count(self) -> usize
        ensures { result ≡ count_of self }
    {
        match self {
            Family::Pre => 19,
            Family::Post => 32,
            Family::FrameStart => 2,
            Family::Item => 16,
            Family::FrameEnd => 1,
            Family::FodPlatform => 2,
            Family::DreamlandWhispy => 1,
            Family::StadiumTransformation => 2,
        }
    }
}

// A column: its width in bytes, and the first version that has it.
#[derive(Clone, Copy)]
pub struct Column {
    pub width: u8,
    pub major: u8,
    pub minor: u8,
}

// The columns of all families, one after another: 4_316 is a width of 4 bytes, from version 3.16 on. Compiled code builds the table wherever it is named, so
// that a listing names it once and lends it.
pub const COLUMNS: [u16; 75] = [
    // Pre
    4_000, // random_seed
    2_000, // state
    4_000, // position.x
    4_000, // position.y
    4_000, // direction
    4_000, // joystick.x
    4_000, // joystick.y
    4_000, // cstick.x
    4_000, // cstick.y
    4_000, // triggers
    4_000, // buttons
    2_000, // buttons_physical
    4_000, // triggers_physical.l
    4_000, // triggers_physical.r
    1_102, // raw_analog_x
    4_104, // percent
    1_315, // raw_analog_y
    1_317, // raw_analog_cstick_x
    1_317, // raw_analog_cstick_y
    // Post
    1_000, // character
    2_000, // state
    4_000, // position.x
    4_000, // position.y
    4_000, // direction
    4_000, // percent
    4_000, // shield
    1_000, // last_attack_landed
    1_000, // combo_count
    1_000, // last_hit_by
    1_000, // stocks
    4_002, // state_age
    1_200, // state_flags.0
    1_200, // state_flags.1
    1_200, // state_flags.2
    1_200, // state_flags.3
    1_200, // state_flags.4
    4_200, // misc_as
    1_200, // airborne
    2_200, // ground
    1_200, // jumps
    1_200, // l_cancel
    1_201, // hurtbox_state
    4_305, // velocities.self_x_air
    4_305, // velocities.self_y
    4_305, // velocities.knockback_x
    4_305, // velocities.knockback_y
    4_305, // velocities.self_x_ground
    4_308, // hitlag
    4_311, // animation_index
    2_316, // last_hit_by_instance
    2_316, // instance_id
    // FrameStart
    4_202, // random_seed
    4_310, // scene_frame_counter
    // Item
    2_300, // type
    1_300, // state
    4_300, // direction
    4_300, // velocity.x
    4_300, // velocity.y
    4_300, // position.x
    4_300, // position.y
    2_300, // damage
    4_300, // timer
    4_300, // id
    1_302, // misc.0
    1_302, // misc.1
    1_302, // misc.2
    1_302, // misc.3
    1_306, // owner
    2_316, // instance_id
    // FrameEnd
    4_307, // latest_finalized_frame
    // FodPlatform
    1_318, // platform
    4_318, // height
    // DreamlandWhispy
    1_318, // direction
    // StadiumTransformation
    2_318, // event
    2_318, // type
];

// What a number of the table says.
pub fn column_of(x: u16) -> Column
    ensures { result ≡ column_of x }
{
    Column {
        width: (x / 1_000 % 256) as u8,
        major: (x / 100 % 10) as u8,
        minor: (x % 100) as u8,
    }
}
