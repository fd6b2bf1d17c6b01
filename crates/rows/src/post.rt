// The row of a Post record, with the mark of its player: 1 where it is in the frame, and 0 where it is not.
ghost use Rattle.std.specs.Prelude.{◌≡◌};
ghost use Rattle.layout.specs.declared.columns.Family.TheVariants as family;
ghost use Rattle.rows.specs.Inner.{Within};
ghost use Rattle.rows.specs.Rows.{post_of};

use super::float::float_of;
use super::parts::{Position, StateFlags, Velocities, position_of, velocities_of};
use format::version::Version;

#[repr(C)]
#[derive(Clone, Copy)]
pub struct Post {
    pub version: Version,
    pub present: u8,
    pub bits: [u32; 32],
    pub character: u8,
    pub state: u16,
    pub position: Position,
    pub direction: f32,
    pub percent: f32,
    pub shield: f32,
    pub last_attack_landed: u8,
    pub combo_count: u8,
    pub last_hit_by: u8,
    pub stocks: u8,
    pub state_age: f32,
    pub state_flags: StateFlags,
    pub misc_as: f32,
    pub airborne: u8,
    pub ground: u16,
    pub jumps: u8,
    pub l_cancel: u8,
    pub hurtbox_state: u8,
    pub velocities: Velocities,
    pub hitlag: f32,
    pub animation_index: u32,
    pub last_hit_by_instance: u16,
    pub instance_id: u16,
}

pub fn post_of(raw: [u32; 32], version: Version, present: u8) -> Post
    requires { Within family.Post raw }
    ensures { result ≡ post_of raw version present }
{
    Post {
        version,
        present,
        bits: raw,
        character: raw[0] as u8,
        state: raw[1] as u16,
        position: position_of(raw[2], raw[3]),
        direction: float_of(raw[4]),
        percent: float_of(raw[5]),
        shield: float_of(raw[6]),
        last_attack_landed: raw[7] as u8,
        combo_count: raw[8] as u8,
        last_hit_by: raw[9] as u8,
        stocks: raw[10] as u8,
        state_age: float_of(raw[11]),
        state_flags: StateFlags(
            raw[12] as u8,
            raw[13] as u8,
            raw[14] as u8,
            raw[15] as u8,
            raw[16] as u8,
        ),
        misc_as: float_of(raw[17]),
        airborne: raw[18] as u8,
        ground: raw[19] as u16,
        jumps: raw[20] as u8,
        l_cancel: raw[21] as u8,
        hurtbox_state: raw[22] as u8,
        velocities: velocities_of(raw[23], raw[24], raw[25], raw[26], raw[27]),
        hitlag: float_of(raw[28]),
        animation_index: raw[29],
        last_hit_by_instance: raw[30] as u16,
        instance_id: raw[31] as u16,
    }
}
