// The row of an Item record.
ghost use Rattle.std.specs.Prelude.{◌≡◌};
ghost use Rattle.layout.specs.declared.columns.Family.TheVariants as family;
ghost use Rattle.rows.specs.Inner.{Within};
ghost use Rattle.rows.specs.Rows.{item_of};

use super::float::float_of;
use super::parts::{ItemMisc, Position, Velocity, position_of, velocity_of};
use format::signed::signed8;
use format::version::Version;

#[repr(C)]
#[derive(Clone, Copy)]
pub struct Item {
    pub version: Version,
    pub bits: [u32; 32],
    pub type_id: u16,
    pub state: u8,
    pub direction: f32,
    pub velocity: Velocity,
    pub position: Position,
    pub damage: u16,
    pub timer: f32,
    pub id: u32,
    pub misc: ItemMisc,
    pub owner: i8,
    pub instance_id: u16,
}

pub fn item_of(raw: [u32; 32], version: Version) -> Item
    requires { Within family.Item raw }
    ensures { result ≡ item_of raw version }
{
    Item {
        version,
        bits: raw,
        type_id: raw[0] as u16,
        state: raw[1] as u8,
        direction: float_of(raw[2]),
        velocity: velocity_of(raw[3], raw[4]),
        position: position_of(raw[5], raw[6]),
        damage: raw[7] as u16,
        timer: float_of(raw[8]),
        id: raw[9],
        misc: ItemMisc(raw[10] as u8, raw[11] as u8, raw[12] as u8, raw[13] as u8),
        owner: signed8(raw[14]),
        instance_id: raw[15] as u16,
    }
}
