// The row of a Pre record, with the mark of its player: 1 where it is in the frame, and 0 where it is not.
ghost use Rattle.std.specs.Prelude.{◌≡◌};
ghost use Rattle.layout.specs.declared.columns.Family.TheVariants as family;
ghost use Rattle.rows.specs.Inner.{Within};
ghost use Rattle.rows.specs.Rows.{pre_of};

use super::float::float_of;
use super::parts::{Position, TriggersPhysical, position_of, triggers_of};
use format::signed::signed8;
use format::version::Version;

#[repr(C)]
#[derive(Clone, Copy)]
pub struct Pre {
    pub version: Version,
    pub present: u8,
    pub bits: [u32; 32],
    pub random_seed: u32,
    pub state: u16,
    pub position: Position,
    pub direction: f32,
    pub joystick: Position,
    pub cstick: Position,
    pub triggers: f32,
    pub buttons: u32,
    pub buttons_physical: u16,
    pub triggers_physical: TriggersPhysical,
    pub raw_analog_x: i8,
    pub percent: f32,
    pub raw_analog_y: i8,
    pub raw_analog_cstick_x: i8,
    pub raw_analog_cstick_y: i8,
}

pub fn pre_of(raw: [u32; 32], version: Version, present: u8) -> Pre
    requires { Within family.Pre raw }
    ensures { result ≡ pre_of raw version present }
{
    Pre {
        version,
        present,
        bits: raw,
        random_seed: raw[0],
        state: raw[1] as u16,
        position: position_of(raw[2], raw[3]),
        direction: float_of(raw[4]),
        joystick: position_of(raw[5], raw[6]),
        cstick: position_of(raw[7], raw[8]),
        triggers: float_of(raw[9]),
        buttons: raw[10],
        buttons_physical: raw[11] as u16,
        triggers_physical: triggers_of(raw[12], raw[13]),
        raw_analog_x: signed8(raw[14]),
        percent: float_of(raw[15]),
        raw_analog_y: signed8(raw[16]),
        raw_analog_cstick_x: signed8(raw[17]),
        raw_analog_cstick_y: signed8(raw[18]),
    }
}
