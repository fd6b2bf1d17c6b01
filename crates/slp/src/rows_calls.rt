// The rows of a run as cells, and rows of cells, as their crate gives them.
ghost use Rattle.std.specs.Prelude.{◌≡◌};
ghost use Rattle.game.specs.Stores.{cells, offsets, lent};
ghost use Rattle.rows_given.specs.Given.{pre_given, post_given, item_given, frame_start_given, frame_end_given, fod_platform_given, dreamland_whispy_given, stadium_transformation_given};
ghost use Rattle.rows_run.specs.Run.{RowsOutcome};

use crate::lent::lent_of;
use format::version::Version;
use game::frames::Frames;
use rows::item::Item;
use rows::post::Post;
use rows::pre::Pre;
use rows::small::{DreamlandWhispy, FodPlatform, FrameEnd, FrameStart, StadiumTransformation};
use rows_run::run::Run;

#[unsafe(no_mangle)]
pub extern "C" fn slp_rows(
    out: &mut [u32],
    f: Frames,
    ids: &[u32],
    starts: &[u32],
    pres: &[u32],
    posts: &[u32],
    ends: &[u32],
    items: &[u32],
    fods: &[u32],
    whispys: &[u32],
    stadiums: &[u32],
    item_offsets: &[u32],
    fod_offsets: &[u32],
    whispy_offsets: &[u32],
    stadium_offsets: &[u32],
    presence: &[u8],
    family: u8,
    slot: usize,
    a: usize,
    b: usize,
) -> Run
    ensures { RowsOutcome f (lent
        (cells ids.now starts.now pres.now posts.now ends.now
        items.now fods.now whispys.now stadiums.now)
        (offsets item_offsets.now fod_offsets.now whispy_offsets.now stadium_offsets.now)
        presence.now) family slot a b out.old result out.new }
{
    let lent = lent_of(
        ids,
        starts,
        pres,
        posts,
        ends,
        items,
        fods,
        whispys,
        stadiums,
        item_offsets,
        fod_offsets,
        whispy_offsets,
        stadium_offsets,
        presence,
    );
    rows_run::run::rows_of_run(out, f, &lent, family, slot, a, b)
}

#[unsafe(no_mangle)]
pub extern "C" fn slp_pre_of(cells: &[u32], version: Version, present: u32) -> Pre
    ensures { result ≡ pre_given cells.now version present }
{
    rows_given::given::pre_given(cells, version, present)
}

#[unsafe(no_mangle)]
pub extern "C" fn slp_post_of(cells: &[u32], version: Version, present: u32) -> Post
    ensures { result ≡ post_given cells.now version present }
{
    rows_given::given::post_given(cells, version, present)
}

#[unsafe(no_mangle)]
pub extern "C" fn slp_item_of(cells: &[u32], version: Version) -> Item
    ensures { result ≡ item_given cells.now version }
{
    rows_given::given::item_given(cells, version)
}

#[unsafe(no_mangle)]
pub extern "C" fn slp_frame_start_of(cells: &[u32], version: Version) -> FrameStart
    ensures { result ≡ frame_start_given cells.now version }
{
    rows_given::given::frame_start_given(cells, version)
}

#[unsafe(no_mangle)]
pub extern "C" fn slp_frame_end_of(cells: &[u32], version: Version) -> FrameEnd
    ensures { result ≡ frame_end_given cells.now version }
{
    rows_given::given::frame_end_given(cells, version)
}

#[unsafe(no_mangle)]
pub extern "C" fn slp_fod_platform_of(cells: &[u32], version: Version) -> FodPlatform
    ensures { result ≡ fod_platform_given cells.now version }
{
    rows_given::given::fod_platform_given(cells, version)
}

#[unsafe(no_mangle)]
pub extern "C" fn slp_dreamland_whispy_of(cells: &[u32], version: Version) -> DreamlandWhispy
    ensures { result ≡ dreamland_whispy_given cells.now version }
{
    rows_given::given::dreamland_whispy_given(cells, version)
}

#[unsafe(no_mangle)]
pub extern "C" fn slp_stadium_transformation_of(
    cells: &[u32],
    version: Version,
) -> StadiumTransformation
    ensures { result ≡ stadium_transformation_given cells.now version }
{
    rows_given::given::stadium_transformation_given(cells, version)
}
