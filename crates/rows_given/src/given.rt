// Rows of cells that are given: no judgement and no refusal, for every bit pattern, every number of cells and every version.
ghost use Rattle.std.specs.Prelude.{◌≡◌, ℕ, ◌≤◌, get_or};
ghost use Rattle.format.specs.Mark.{flag_of};
ghost use Rattle.rows.specs.Cells.{first_cells};
ghost use Rattle.rows_given.specs.Given.{pre_given, post_given, item_given, frame_start_given, frame_end_given, fod_platform_given, dreamland_whispy_given, stadium_transformation_given};
ghost use Rattle.rows_given.specs.Inner.{KeptCells};

use super::narrow::narrow;
use format::version::Version;
use layout::columns::Family;
use layout::listing::columns;
use rows::item::{Item, item_of};
use rows::post::{Post, post_of};
use rows::pre::{Pre, pre_of};
use rows::small::{
    DreamlandWhispy, FodPlatform, FrameEnd, FrameStart, StadiumTransformation, dreamland_whispy_of,
    fod_platform_of, frame_end_of, frame_start_of, stadium_transformation_of,
};

// The first n cells, and zeros; cells that are missing are 0.
fn filled(cells: &[u32], n: usize) -> [u32; 32]
    requires { n ≤ 32 }
    ensures { result ≡ first_cells (λ (k : ℕ). get_or cells.now k 0) n }
{
    let m = n.min(cells.len());
    let mut raw = [0u32; 32];
    raw[..m].copy_from_slice(&cells[..m]);
    raw
}

fn given_cells(family: Family, version: Version, cells: &[u32]) -> [u32; 32]
    ensures { KeptCells family version cells.now result }
{
    let n = columns(family, version);
    narrow(family, filled(cells, n))
}

fn given_mark(mark: u32) -> u8
    ensures { result ≡ flag_of mark }
{
    u8::from(mark != 0)
}

pub fn pre_given(cells: &[u32], version: Version, present: u32) -> Pre
    ensures { result ≡ pre_given cells.now version present }
{
    pre_of(
        given_cells(Family::Pre, version, cells),
        version,
        given_mark(present),
    )
}

pub fn post_given(cells: &[u32], version: Version, present: u32) -> Post
    ensures { result ≡ post_given cells.now version present }
{
    post_of(
        given_cells(Family::Post, version, cells),
        version,
        given_mark(present),
    )
}

pub fn item_given(cells: &[u32], version: Version) -> Item
    ensures { result ≡ item_given cells.now version }
{
    item_of(given_cells(Family::Item, version, cells), version)
}

pub fn frame_start_given(cells: &[u32], version: Version) -> FrameStart
    ensures { result ≡ frame_start_given cells.now version }
{
    frame_start_of(given_cells(Family::FrameStart, version, cells), version)
}

pub fn frame_end_given(cells: &[u32], version: Version) -> FrameEnd
    ensures { result ≡ frame_end_given cells.now version }
{
    frame_end_of(given_cells(Family::FrameEnd, version, cells), version)
}

pub fn fod_platform_given(cells: &[u32], version: Version) -> FodPlatform
    ensures { result ≡ fod_platform_given cells.now version }
{
    fod_platform_of(given_cells(Family::FodPlatform, version, cells), version)
}

pub fn dreamland_whispy_given(cells: &[u32], version: Version) -> DreamlandWhispy
    ensures { result ≡ dreamland_whispy_given cells.now version }
{
    dreamland_whispy_of(
        given_cells(Family::DreamlandWhispy, version, cells),
        version,
    )
}

pub fn stadium_transformation_given(cells: &[u32], version: Version) -> StadiumTransformation
    ensures { result ≡ stadium_transformation_given cells.now version }
{
    stadium_transformation_of(
        given_cells(Family::StadiumTransformation, version, cells),
        version,
    )
}
