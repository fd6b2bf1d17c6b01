// Frame rows, as their crate gives them.
ghost use Rattle.std.specs.Prelude.{◌≡◌};
ghost use Rattle.game.specs.Stores.{cells, offsets, lent};
ghost use Rattle.transpose.specs.Answers.{frame_row, pre_row, post_row, item_row, fod_platform_row, dreamland_whispy_row, stadium_transformation_row};

use crate::lent::lent_of;
use game::frames::Frames;
use transpose::frame::FrameRow;
use transpose::records::{
    DreamlandWhispyRow, FodPlatformRow, ItemRow, PostRow, PreRow, StadiumTransformationRow,
};

#[unsafe(no_mangle)]
pub extern "C" fn slp_frame_row(
    f: Frames,
    ids: &[u32],
    starts: &[u32],
    pres: &[u32],
    posts: &[u32],
    ends: &[u32],
    items: &[u32],
    fods: &[u32],
    whispys: &[u32],
    stadiums: &[u32],
    item_offsets: &[u32],
    fod_offsets: &[u32],
    whispy_offsets: &[u32],
    stadium_offsets: &[u32],
    presence: &[u8],
    index: usize,
) -> FrameRow
    ensures { result ≡ frame_row f (lent
        (cells ids.now starts.now pres.now posts.now ends.now
        items.now fods.now whispys.now stadiums.now)
        (offsets item_offsets.now fod_offsets.now whispy_offsets.now stadium_offsets.now)
        presence.now) index }
{
    let lent = lent_of(
        ids,
        starts,
        pres,
        posts,
        ends,
        items,
        fods,
        whispys,
        stadiums,
        item_offsets,
        fod_offsets,
        whispy_offsets,
        stadium_offsets,
        presence,
    );
    transpose::frame::frame_row(f, &lent, index)
}

#[unsafe(no_mangle)]
pub extern "C" fn slp_pre_row(
    f: Frames,
    ids: &[u32],
    starts: &[u32],
    pres: &[u32],
    posts: &[u32],
    ends: &[u32],
    items: &[u32],
    fods: &[u32],
    whispys: &[u32],
    stadiums: &[u32],
    item_offsets: &[u32],
    fod_offsets: &[u32],
    whispy_offsets: &[u32],
    stadium_offsets: &[u32],
    presence: &[u8],
    slot: usize,
    index: usize,
) -> PreRow
    ensures { result ≡ pre_row f (lent
        (cells ids.now starts.now pres.now posts.now ends.now
        items.now fods.now whispys.now stadiums.now)
        (offsets item_offsets.now fod_offsets.now whispy_offsets.now stadium_offsets.now)
        presence.now) slot index }
{
    let lent = lent_of(
        ids,
        starts,
        pres,
        posts,
        ends,
        items,
        fods,
        whispys,
        stadiums,
        item_offsets,
        fod_offsets,
        whispy_offsets,
        stadium_offsets,
        presence,
    );
    transpose::records::pre_row(f, &lent, slot, index)
}

#[unsafe(no_mangle)]
pub extern "C" fn slp_post_row(
    f: Frames,
    ids: &[u32],
    starts: &[u32],
    pres: &[u32],
    posts: &[u32],
    ends: &[u32],
    items: &[u32],
    fods: &[u32],
    whispys: &[u32],
    stadiums: &[u32],
    item_offsets: &[u32],
    fod_offsets: &[u32],
    whispy_offsets: &[u32],
    stadium_offsets: &[u32],
    presence: &[u8],
    slot: usize,
    index: usize,
) -> PostRow
    ensures { result ≡ post_row f (lent
        (cells ids.now starts.now pres.now posts.now ends.now
        items.now fods.now whispys.now stadiums.now)
        (offsets item_offsets.now fod_offsets.now whispy_offsets.now stadium_offsets.now)
        presence.now) slot index }
{
    let lent = lent_of(
        ids,
        starts,
        pres,
        posts,
        ends,
        items,
        fods,
        whispys,
        stadiums,
        item_offsets,
        fod_offsets,
        whispy_offsets,
        stadium_offsets,
        presence,
    );
    transpose::records::post_row(f, &lent, slot, index)
}

#[unsafe(no_mangle)]
pub extern "C" fn slp_item_row(
    f: Frames,
    ids: &[u32],
    starts: &[u32],
    pres: &[u32],
    posts: &[u32],
    ends: &[u32],
    items: &[u32],
    fods: &[u32],
    whispys: &[u32],
    stadiums: &[u32],
    item_offsets: &[u32],
    fod_offsets: &[u32],
    whispy_offsets: &[u32],
    stadium_offsets: &[u32],
    presence: &[u8],
    index: usize,
) -> ItemRow
    ensures { result ≡ item_row f (lent
        (cells ids.now starts.now pres.now posts.now ends.now
        items.now fods.now whispys.now stadiums.now)
        (offsets item_offsets.now fod_offsets.now whispy_offsets.now stadium_offsets.now)
        presence.now) index }
{
    let lent = lent_of(
        ids,
        starts,
        pres,
        posts,
        ends,
        items,
        fods,
        whispys,
        stadiums,
        item_offsets,
        fod_offsets,
        whispy_offsets,
        stadium_offsets,
        presence,
    );
    transpose::records::item_row(f, &lent, index)
}

#[unsafe(no_mangle)]
pub extern "C" fn slp_fod_platform_row(
    f: Frames,
    ids: &[u32],
    starts: &[u32],
    pres: &[u32],
    posts: &[u32],
    ends: &[u32],
    items: &[u32],
    fods: &[u32],
    whispys: &[u32],
    stadiums: &[u32],
    item_offsets: &[u32],
    fod_offsets: &[u32],
    whispy_offsets: &[u32],
    stadium_offsets: &[u32],
    presence: &[u8],
    index: usize,
) -> FodPlatformRow
    ensures { result ≡ fod_platform_row f (lent
        (cells ids.now starts.now pres.now posts.now ends.now
        items.now fods.now whispys.now stadiums.now)
        (offsets item_offsets.now fod_offsets.now whispy_offsets.now stadium_offsets.now)
        presence.now) index }
{
    let lent = lent_of(
        ids,
        starts,
        pres,
        posts,
        ends,
        items,
        fods,
        whispys,
        stadiums,
        item_offsets,
        fod_offsets,
        whispy_offsets,
        stadium_offsets,
        presence,
    );
    transpose::records::fod_platform_row(f, &lent, index)
}

#[unsafe(no_mangle)]
pub extern "C" fn slp_dreamland_whispy_row(
    f: Frames,
    ids: &[u32],
    starts: &[u32],
    pres: &[u32],
    posts: &[u32],
    ends: &[u32],
    items: &[u32],
    fods: &[u32],
    whispys: &[u32],
    stadiums: &[u32],
    item_offsets: &[u32],
    fod_offsets: &[u32],
    whispy_offsets: &[u32],
    stadium_offsets: &[u32],
    presence: &[u8],
    index: usize,
) -> DreamlandWhispyRow
    ensures { result ≡ dreamland_whispy_row f (lent
        (cells ids.now starts.now pres.now posts.now ends.now
        items.now fods.now whispys.now stadiums.now)
        (offsets item_offsets.now fod_offsets.now whispy_offsets.now stadium_offsets.now)
        presence.now) index }
{
    let lent = lent_of(
        ids,
        starts,
        pres,
        posts,
        ends,
        items,
        fods,
        whispys,
        stadiums,
        item_offsets,
        fod_offsets,
        whispy_offsets,
        stadium_offsets,
        presence,
    );
    transpose::records::dreamland_whispy_row(f, &lent, index)
}

#[unsafe(no_mangle)]
pub extern "C" fn slp_stadium_transformation_row(
    f: Frames,
    ids: &[u32],
    starts: &[u32],
    pres: &[u32],
    posts: &[u32],
    ends: &[u32],
    items: &[u32],
    fods: &[u32],
    whispys: &[u32],
    stadiums: &[u32],
    item_offsets: &[u32],
    fod_offsets: &[u32],
    whispy_offsets: &[u32],
    stadium_offsets: &[u32],
    presence: &[u8],
    index: usize,
) -> StadiumTransformationRow
    ensures { result ≡ stadium_transformation_row f (lent
        (cells ids.now starts.now pres.now posts.now ends.now
        items.now fods.now whispys.now stadiums.now)
        (offsets item_offsets.now fod_offsets.now whispy_offsets.now stadium_offsets.now)
        presence.now) index }
{
    let lent = lent_of(
        ids,
        starts,
        pres,
        posts,
        ends,
        items,
        fods,
        whispys,
        stadiums,
        item_offsets,
        fod_offsets,
        whispy_offsets,
        stadium_offsets,
        presence,
    );
    transpose::records::stadium_transformation_row(f, &lent, index)
}
