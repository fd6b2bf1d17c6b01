// What a column is called and what its cells are, beside its width and its first version.
ghost use Rattle.std.specs.Prelude.{◌≡◌, ◌<◌, ◌≤◌, length, get_or};
ghost use Rattle.layout.specs.Columns.{col, columns_of};
ghost use Rattle.names.specs.Inner.{line, called_as, called_of};
ghost use Rattle.names.specs.Names.{no_column, described};

use crate::lines::{line_end, line_start};
use format::refusal::OUT_OF_RANGE;
use layout::columns::{COLUMNS, Column, Family, column_of};

// The columns of each family, in the order of its record, a line for each: u, i or f, as it is unsigned, signed or a float, and its name.
const PRE: [u8; 276] = *b"u random_seed
u state
f position_x
f position_y
f direction
f joystick_x
f joystick_y
f cstick_x
f cstick_y
f triggers
u buttons
u buttons_physical
f triggers_physical_l
f triggers_physical_r
i raw_analog_x
f percent
i raw_analog_y
i raw_analog_cstick_x
i raw_analog_cstick_y
";

const POST: [u8; 477] = *b"u character
u state
f position_x
f position_y
f direction
f percent
f shield
u last_attack_landed
u combo_count
u last_hit_by
u stocks
f state_age
u state_flags_0
u state_flags_1
u state_flags_2
u state_flags_3
u state_flags_4
f misc_as
u airborne
u ground
u jumps
u l_cancel
u hurtbox_state
f velocities_self_x_air
f velocities_self_y
f velocities_knockback_x
f velocities_knockback_y
f velocities_self_x_ground
f hitlag
u animation_index
u last_hit_by_instance
u instance_id
";

const FRAME_START: [u8; 36] = *b"u random_seed
u scene_frame_counter
";

const ITEM: [u8; 159] = *b"u type
u state
f direction
f velocity_x
f velocity_y
f position_x
f position_y
u damage
f timer
u id
u misc_0
u misc_1
u misc_2
u misc_3
i owner
u instance_id
";

const FRAME_END: [u8; 25] = *b"i latest_finalized_frame
";

const FOD_PLATFORM: [u8; 20] = *b"u platform
f height
";

const DREAMLAND_WHISPY: [u8; 12] = *b"u direction
";

const STADIUM_TRANSFORMATION: [u8; 15] = *b"u event
u type
";

// A column's kind, a byte as C callers read it, and its name with zeros behind it.
#[derive(Clone, Copy)]
pub struct Called {
    pub kind: u8,
    pub name: [u8; 32],
}

// A column, or why there is none: then all else is 0.
#[repr(C)]
#[derive(Clone, Copy)]
pub struct Described {
    pub refused: u8,
    pub width: u8,
    pub kind: u8,
    pub major: u8,
    pub minor: u8,
    pub name: [u8; 32],
}

// The column of line n of a list.
fn on_line(s: &[u8], n: usize) -> Called
    requires { (2 ≤ length (line n s.now)) × (length (line n s.now) ≤ 34) }
    ensures { result ≡ called_as (line n s.now) }
{
    let from = line_start(s, n);
    let to = line_end(s, from);
    let at = from + 2;
    let mut name = [0u8; 32];
    wire::put_bytes(&mut name, 0, &s[at..to]);
    Called {
        kind: s[from],
        name,
    }
}

// Column n of a family.
fn of_family(f: Family, n: usize) -> Called
    requires { n < length (columns_of f) }
    ensures { result ≡ called_of f n }
{
    match f {
        Family::Pre => on_line(&PRE, n),
        Family::Post => on_line(&POST, n),
        Family::FrameStart => on_line(&FRAME_START, n),
        Family::Item => on_line(&ITEM, n),
        Family::FrameEnd => on_line(&FRAME_END, n),
        Family::FodPlatform => on_line(&FOD_PLATFORM, n),
        Family::DreamlandWhispy => on_line(&DREAMLAND_WHISPY, n),
        Family::StadiumTransformation => on_line(&STADIUM_TRANSFORMATION, n),
    }
}

// The same by the one table: its width and first version.
fn nth(f: Family, n: usize) -> Column
    requires { n < length (columns_of f) }
    ensures { result ≡ get_or (columns_of f) n (col 0 0 0) }
{
    let all = COLUMNS;
    column_of(all[f.first() + n])
}

// No column.
pub fn no_column() -> Described
    ensures { result ≡ no_column }
{
    Described {
        refused: OUT_OF_RANGE,
        width: 0,
        kind: 0,
        major: 0,
        minor: 0,
        name: [0u8; 32],
    }
}

// Column n of a family, with all that is known of it.
pub fn column(f: Family, n: usize) -> Described
    ensures { result ≡ described f n }
{
    if f.count() <= n {
        return no_column();
    }
    let since = nth(f, n);
    let by = of_family(f, n);
    let name = by.name;
    Described {
        refused: 0,
        width: since.width,
        kind: by.kind,
        major: since.major,
        minor: since.minor,
        name,
    }
}
