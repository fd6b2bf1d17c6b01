// The parts that rows are made of.
ghost use Rattle.std.specs.Prelude.{◌≡◌};
ghost use Rattle.rows.specs.Parts.{position_of, velocity_of, triggers_of, velocities_of};

use super::float::float_of;

#[repr(C)]
#[derive(Clone, Copy)]
pub struct Position {
    pub x: f32,
    pub y: f32,
}

#[repr(C)]
#[derive(Clone, Copy)]
pub struct Velocity {
    pub x: f32,
    pub y: f32,
}

#[repr(C)]
#[derive(Clone, Copy)]
pub struct TriggersPhysical {
    pub l: f32,
    pub r: f32,
}

#[repr(C)]
#[derive(Clone, Copy)]
pub struct Velocities {
    pub self_x_air: f32,
    pub self_y: f32,
    pub knockback_x: f32,
    pub knockback_y: f32,
    pub self_x_ground: f32,
}

#[repr(C)]
#[derive(Clone, Copy)]
pub struct StateFlags(pub u8, pub u8, pub u8, pub u8, pub u8);

#[repr(C)]
#[derive(Clone, Copy)]
pub struct ItemMisc(pub u8, pub u8, pub u8, pub u8);

pub fn position_of(x: u32, y: u32) -> Position
    ensures { result ≡ position_of x y }
{
    Position {
        x: float_of(x),
        y: float_of(y),
    }
}

pub fn velocity_of(x: u32, y: u32) -> Velocity
    ensures { result ≡ velocity_of x y }
{
    Velocity {
        x: float_of(x),
        y: float_of(y),
    }
}

pub fn triggers_of(l: u32, r: u32) -> TriggersPhysical
    ensures { result ≡ triggers_of l r }
{
    TriggersPhysical {
        l: float_of(l),
        r: float_of(r),
    }
}

pub fn velocities_of(a: u32, b: u32, c: u32, d: u32, e: u32) -> Velocities
    ensures { result ≡ velocities_of a b c d e }
{
    Velocities {
        self_x_air: float_of(a),
        self_y: float_of(b),
        knockback_x: float_of(c),
        knockback_y: float_of(d),
        self_x_ground: float_of(e),
    }
}
