// The rows of the records with one or two columns: a frame's start and end, and what a stage does.
ghost use Rattle.std.specs.Prelude.{◌≡◌};
ghost use Rattle.layout.specs.declared.columns.Family.TheVariants as family;
ghost use Rattle.rows.specs.Inner.{Within};
ghost use Rattle.rows.specs.Rows.{frame_start_of, frame_end_of, fod_platform_of, dreamland_whispy_of, stadium_transformation_of};

use super::float::float_of;
use format::signed::signed32;
use format::version::Version;

#[repr(C)]
#[derive(Clone, Copy)]
pub struct FrameStart {
    pub version: Version,
    pub bits: [u32; 32],
    pub random_seed: u32,
    pub scene_frame_counter: u32,
}

#[repr(C)]
#[derive(Clone, Copy)]
pub struct FrameEnd {
    pub version: Version,
    pub bits: [u32; 32],
    pub latest_finalized_frame: i32,
}

#[repr(C)]
#[derive(Clone, Copy)]
pub struct FodPlatform {
    pub version: Version,
    pub bits: [u32; 32],
    pub platform: u8,
    pub height: f32,
}

#[repr(C)]
#[derive(Clone, Copy)]
pub struct DreamlandWhispy {
    pub version: Version,
    pub bits: [u32; 32],
    pub direction: u8,
}

#[repr(C)]
#[derive(Clone, Copy)]
pub struct StadiumTransformation {
    pub version: Version,
    pub bits: [u32; 32],
    pub event: u16,
    pub type_id: u16,
}

pub fn frame_start_of(raw: [u32; 32], version: Version) -> FrameStart
    ensures { result ≡ frame_start_of raw version }
{
    FrameStart {
        version,
        bits: raw,
        random_seed: raw[0],
        scene_frame_counter: raw[1],
    }
}

pub fn frame_end_of(raw: [u32; 32], version: Version) -> FrameEnd
    ensures { result ≡ frame_end_of raw version }
{
    FrameEnd {
        version,
        bits: raw,
        latest_finalized_frame: signed32(raw[0]),
    }
}

pub fn fod_platform_of(raw: [u32; 32], version: Version) -> FodPlatform
    requires { Within family.FodPlatform raw }
    ensures { result ≡ fod_platform_of raw version }
{
    FodPlatform {
        version,
        bits: raw,
        platform: raw[0] as u8,
        height: float_of(raw[1]),
    }
}

pub fn dreamland_whispy_of(raw: [u32; 32], version: Version) -> DreamlandWhispy
    requires { Within family.DreamlandWhispy raw }
    ensures { result ≡ dreamland_whispy_of raw version }
{
    DreamlandWhispy {
        version,
        bits: raw,
        direction: raw[0] as u8,
    }
}

pub fn stadium_transformation_of(raw: [u32; 32], version: Version) -> StadiumTransformation
    requires { Within family.StadiumTransformation raw }
    ensures { result ≡ stadium_transformation_of raw version }
{
    StadiumTransformation {
        version,
        bits: raw,
        event: raw[0] as u16,
        type_id: raw[1] as u16,
    }
}
