// The public calls for the row of one record: each judges all that is lent, and answers a number, 0 where the row is given, beside the row.
ghost use Rattle.std.specs.Prelude.{◌≡◌};
ghost use Rattle.game.specs.Held.{lent_in};
ghost use Rattle.transpose.specs.Answers.{pre_row, post_row, item_row, fod_platform_row, dreamland_whispy_row, stadium_transformation_row};

use super::fetch::{
    dreamland_whispy_at, fod_platform_at, item_at, mark_at, post_at, pre_at,
    stadium_transformation_at,
};
use super::judge::place_judged;
use format::refusal::number_in;
use frames::judge::judge;
use game::frames::Frames;
use game::stores::Lent;
use layout::columns::Family;
use rows::item::Item;
use rows::post::Post;
use rows::pre::Pre;
use rows::small::{DreamlandWhispy, FodPlatform, StadiumTransformation};

#[repr(C)]
#[derive(Clone, Copy)]
pub struct PreRow {
    pub refused: u8,
    pub row: Pre,
}

#[repr(C)]
#[derive(Clone, Copy)]
pub struct PostRow {
    pub refused: u8,
    pub row: Post,
}

#[repr(C)]
#[derive(Clone, Copy)]
pub struct ItemRow {
    pub refused: u8,
    pub row: Item,
}

#[repr(C)]
#[derive(Clone, Copy)]
pub struct FodPlatformRow {
    pub refused: u8,
    pub row: FodPlatform,
}

#[repr(C)]
#[derive(Clone, Copy)]
pub struct DreamlandWhispyRow {
    pub refused: u8,
    pub row: DreamlandWhispy,
}

#[repr(C)]
#[derive(Clone, Copy)]
pub struct StadiumTransformationRow {
    pub refused: u8,
    pub row: StadiumTransformation,
}

// A call for each C struct: what they share is in the judge and in the fetching functions, and what is left names the family, its store and its struct.
pub fn pre_row(f: Frames, lent: &Lent<'_>, slot: usize, index: usize) -> PreRow
    ensures { result ≡ pre_row f (lent_in lent.now) slot index }
{
    let judged = place_judged(judge(f, lent, 0, 0), f, Family::Pre, slot, index);
    let shown = judged.is_ok();
    let mark = mark_at(f, lent.presence, slot, index, shown);
    let row = pre_at(f, lent.cells.pres, slot, index, mark, shown);
    PreRow {
        refused: number_in(judged),
        row,
    }
}

pub fn post_row(f: Frames, lent: &Lent<'_>, slot: usize, index: usize) -> PostRow
    ensures { result ≡ post_row f (lent_in lent.now) slot index }
{
    let judged = place_judged(judge(f, lent, 0, 0), f, Family::Post, slot, index);
    let shown = judged.is_ok();
    let mark = mark_at(f, lent.presence, slot, index, shown);
    let row = post_at(f, lent.cells.posts, slot, index, mark, shown);
    PostRow {
        refused: number_in(judged),
        row,
    }
}

pub fn item_row(f: Frames, lent: &Lent<'_>, index: usize) -> ItemRow
    ensures { result ≡ item_row f (lent_in lent.now) index }
{
    let judged = place_judged(judge(f, lent, 0, 0), f, Family::Item, 0, index);
    let row = item_at(f, lent.cells.items, index, judged.is_ok());
    ItemRow {
        refused: number_in(judged),
        row,
    }
}

pub fn fod_platform_row(f: Frames, lent: &Lent<'_>, index: usize) -> FodPlatformRow
    ensures { result ≡ fod_platform_row f (lent_in lent.now) index }
{
    let judged = place_judged(judge(f, lent, 0, 0), f, Family::FodPlatform, 0, index);
    let row = fod_platform_at(f, lent.cells.fods, index, judged.is_ok());
    FodPlatformRow {
        refused: number_in(judged),
        row,
    }
}

pub fn dreamland_whispy_row(f: Frames, lent: &Lent<'_>, index: usize) -> DreamlandWhispyRow
    ensures { result ≡ dreamland_whispy_row f (lent_in lent.now) index }
{
    let judged = place_judged(judge(f, lent, 0, 0), f, Family::DreamlandWhispy, 0, index);
    let row = dreamland_whispy_at(f, lent.cells.whispys, index, judged.is_ok());
    DreamlandWhispyRow {
        refused: number_in(judged),
        row,
    }
}

pub fn stadium_transformation_row(
    f: Frames,
    lent: &Lent<'_>,
    index: usize,
) -> StadiumTransformationRow
    ensures { result ≡ stadium_transformation_row f (lent_in lent.now) index }
{
    let judged = place_judged(
        judge(f, lent, 0, 0),
        f,
        Family::StadiumTransformation,
        0,
        index,
    );
    let row = stadium_transformation_at(f, lent.cells.stadiums, index, judged.is_ok());
    StadiumTransformationRow {
        refused: number_in(judged),
        row,
    }
}
