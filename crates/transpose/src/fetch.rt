// The rows of single records, out of stores that were judged: zeros where they are not shown, so that an answer is made in one place.
ghost use Rattle.std.specs.Prelude.{◌≡◌, true};
ghost use Rattle.layout.specs.declared.columns.Family.TheVariants as family;
ghost use Rattle.rows.specs.Rows.{pre_of, post_of, item_of, frame_start_of, frame_end_of, fod_platform_of, dreamland_whispy_of, stadium_transformation_of, no_cells, no_version, no_item, no_frame_start, no_frame_end, no_fod_platform, no_dreamland_whispy, no_stadium_transformation};
ghost use Rattle.transpose.specs.Records.{cells_at, mark_at};
ghost use Rattle.transpose.specs.Inner.{if_shown, Reachable, Fetched, Attending};

use format::version::Version;
use game::frames::Frames;
use layout::columns::Family;
use players::presence::is_present;
use players::slots::slots_of;
use rows::cells::row_cells;
use rows::item::{Item, item_of};
use rows::post::{Post, post_of};
use rows::pre::{Pre, pre_of};
use rows::small::{
    DreamlandWhispy, FodPlatform, FrameEnd, FrameStart, StadiumTransformation, dreamland_whispy_of,
    fod_platform_of, frame_end_of, frame_start_of, stadium_transformation_of,
};

pub fn version_shown(version: Version, shown: bool) -> Version
    ensures { result ≡ if_shown shown version no_version }
{
    if shown {
        return version;
    }
    Version::new(0, 0, 0)
}

// A player's mark: 1 where it is in the frame by its presence bit.
pub fn mark_at(f: Frames, presence: &[u8], slot: usize, index: usize, shown: bool) -> u8
    requires { shown ≡ true → Attending f slot }
    ensures { result ≡ if_shown shown (mark_at f presence.now slot index) 0 }
{
    if !shown {
        return 0;
    }
    let s = slots_of(f);
    u8::from(is_present(presence, s.at[slot], s.len[slot], index))
}

// The cells of a family's record.
fn record_at(
    f: Frames,
    family: Family,
    cells: &[u32],
    block: usize,
    row: usize,
    shown: bool,
) -> [u32; 32]
    requires { shown ≡ true → Reachable f family cells.now block row }
    ensures { Fetched f family cells.now block row shown result }
{
    if !shown {
        return [0; 32];
    }
    let rows = f.rows(family);
    row_cells(family, f.version, cells, rows, block, row)
}

// A function for each row type: each is one call of its family's own function on the record. A trait over the row types would take an impl with a law for each,
// which is longer than the function that it replaces.
pub fn pre_at(f: Frames, cells: &[u32], slot: usize, index: usize, mark: u8, shown: bool) -> Pre
    requires { shown ≡ true → Reachable f family.Pre cells.now slot index }
    ensures { result ≡ if_shown shown (pre_of (cells_at f family.Pre cells.now slot index) f.version mark) (pre_of no_cells no_version mark) }
{
    pre_of(
        record_at(f, Family::Pre, cells, slot, index, shown),
        version_shown(f.version, shown),
        mark,
    )
}

pub fn post_at(f: Frames, cells: &[u32], slot: usize, index: usize, mark: u8, shown: bool) -> Post
    requires { shown ≡ true → Reachable f family.Post cells.now slot index }
    ensures { result ≡ if_shown shown (post_of (cells_at f family.Post cells.now slot index) f.version mark) (post_of no_cells no_version mark) }
{
    post_of(
        record_at(f, Family::Post, cells, slot, index, shown),
        version_shown(f.version, shown),
        mark,
    )
}

pub fn frame_start_at(f: Frames, cells: &[u32], index: usize, shown: bool) -> FrameStart
    requires { shown ≡ true → Reachable f family.FrameStart cells.now 0 index }
    ensures { result ≡ if_shown shown (frame_start_of (cells_at f family.FrameStart cells.now 0 index) f.version) no_frame_start }
{
    frame_start_of(
        record_at(f, Family::FrameStart, cells, 0, index, shown),
        version_shown(f.version, shown),
    )
}

pub fn frame_end_at(f: Frames, cells: &[u32], index: usize, shown: bool) -> FrameEnd
    requires { shown ≡ true → Reachable f family.FrameEnd cells.now 0 index }
    ensures { result ≡ if_shown shown (frame_end_of (cells_at f family.FrameEnd cells.now 0 index) f.version) no_frame_end }
{
    frame_end_of(
        record_at(f, Family::FrameEnd, cells, 0, index, shown),
        version_shown(f.version, shown),
    )
}

pub fn item_at(f: Frames, cells: &[u32], index: usize, shown: bool) -> Item
    requires { shown ≡ true → Reachable f family.Item cells.now 0 index }
    ensures { result ≡ if_shown shown (item_of (cells_at f family.Item cells.now 0 index) f.version) no_item }
{
    item_of(
        record_at(f, Family::Item, cells, 0, index, shown),
        version_shown(f.version, shown),
    )
}

pub fn fod_platform_at(f: Frames, cells: &[u32], index: usize, shown: bool) -> FodPlatform
    requires { shown ≡ true → Reachable f family.FodPlatform cells.now 0 index }
    ensures { result ≡ if_shown shown (fod_platform_of (cells_at f family.FodPlatform cells.now 0 index) f.version) no_fod_platform }
{
    fod_platform_of(
        record_at(f, Family::FodPlatform, cells, 0, index, shown),
        version_shown(f.version, shown),
    )
}

pub fn dreamland_whispy_at(f: Frames, cells: &[u32], index: usize, shown: bool) -> DreamlandWhispy
    requires { shown ≡ true → Reachable f family.DreamlandWhispy cells.now 0 index }
    ensures { result ≡ if_shown shown (dreamland_whispy_of (cells_at f family.DreamlandWhispy cells.now 0 index) f.version) no_dreamland_whispy }
{
    dreamland_whispy_of(
        record_at(f, Family::DreamlandWhispy, cells, 0, index, shown),
        version_shown(f.version, shown),
    )
}

pub fn stadium_transformation_at(
    f: Frames,
    cells: &[u32],
    index: usize,
    shown: bool,
) -> StadiumTransformation
    requires { shown ≡ true → Reachable f family.StadiumTransformation cells.now 0 index }
    ensures { result ≡ if_shown shown (stadium_transformation_of (cells_at f family.StadiumTransformation cells.now 0 index) f.version) no_stadium_transformation }
{
    stadium_transformation_of(
        record_at(f, Family::StadiumTransformation, cells, 0, index, shown),
        version_shown(f.version, shown),
    )
}
