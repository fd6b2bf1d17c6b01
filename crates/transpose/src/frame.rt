// The row of a whole frame.
ghost use Rattle.std.specs.Prelude.{◌≡◌, true, ◌<◌, pos, length, get_or};
ghost use Rattle.std.specs.Int.{w32};
ghost use Rattle.std.proofs.Common.{to_z};
ghost use Rattle.frames.specs.Inner.{Placed};
ghost use Rattle.game.specs.Held.{lent_in, offsets_in};
ghost use Rattle.transpose.specs.Frame.{no_range, range_at, no_frame, frame_of};
ghost use Rattle.transpose.specs.Inner.{if_shown, Showable};
ghost use Rattle.transpose.specs.Answers.{frame_row};

use super::fetch::{frame_end_at, frame_start_at, version_shown};
use super::judge::place_judged;
use super::ports::ports_at;
use format::refusal::number_in;
use format::signed::signed32;
use format::version::Version;
use frames::judge::judge;
use game::frames::Frames;
use game::stores::Lent;
use layout::columns::Family;
use rows::post::Post;
use rows::pre::Pre;
use rows::small::{FrameEnd, FrameStart};

// What a player does in a frame, and whether it is there: 1, or 0 beside the values that the stores have for it. Its Pre and Post say the same.
#[repr(C)]
#[derive(Clone, Copy)]
pub struct Data {
    pub present: u8,
    pub pre: Pre,
    pub post: Post,
}

// A port column's players: the leader, and the follower where one is given (1, or 0 where the follower is all zero).
#[repr(C)]
#[derive(Clone, Copy)]
pub struct PortData {
    pub port: u8,
    pub follower_given: u8,
    pub leader: Data,
    pub follower: Data,
}

// The rows of a family that belong to a frame: the first, and how many.
#[repr(C)]
#[derive(Clone, Copy)]
pub struct Range {
    pub first: usize,
    pub count: usize,
}

#[repr(C)]
#[derive(Clone, Copy)]
pub struct Frame {
    pub version: Version,
    pub id: i32,
    pub port_count: usize,
    pub ports: [PortData; 4],
    pub start: FrameStart,
    pub end: FrameEnd,
    pub items: Range,
    pub fod_platforms: Range,
    pub dreamland_whispys: Range,
    pub stadium_transformations: Range,
}

#[repr(C)]
#[derive(Clone, Copy)]
pub struct FrameRow {
    pub refused: u8,
    pub row: Frame,
}

fn no_range() -> Range
    ensures { result ≡ no_range }
{
    Range { first: 0, count: 0 }
}

// 0 and 0 where the version lacks the family.
fn range_at(f: Frames, family: Family, offsets: &[u32], index: usize) -> Range
    requires { Placed f family offsets.now × (index < f.counts.frames) }
    ensures { result ≡ range_at f family offsets.now index }
{
    if family.exists(f.version) {
        let first = offsets[index] as usize;
        let next = offsets[index + 1] as usize;
        return Range {
            first,
            count: next - first,
        };
    }
    no_range()
}

fn range_shown(f: Frames, family: Family, offsets: &[u32], index: usize, shown: bool) -> Range
    requires { shown ≡ true → Placed f family offsets.now × (index < f.counts.frames) }
    ensures { result ≡ if_shown shown (range_at f family offsets.now index) no_range }
{
    if shown {
        return range_at(f, family, offsets, index);
    }
    no_range()
}

fn id_shown(ids: &[u32], index: usize, shown: bool) -> i32
    requires { shown ≡ true → index < length ids.now }
    ensures { result ≡ if_shown shown (to_z w32 (get_or ids.now index 0)) (pos 0) }
{
    if shown {
        return signed32(ids[index]);
    }
    0
}

fn count_shown(count: usize, shown: bool) -> usize
    ensures { result ≡ if_shown shown count 0 }
{
    if shown {
        return count;
    }
    0
}

// The frame's row, or zeros where it is not shown: one literal for both, since a second would take its room on the stack.
fn frame_at(f: Frames, lent: &Lent<'_>, index: usize, shown: bool) -> Frame
    requires { shown ≡ true → Showable f lent.now.cells.ids.now lent.now.cells.starts.now lent.now.cells.pres.now lent.now.cells.posts.now lent.now.cells.ends.now
        (offsets_in lent.now.offsets) index }
    ensures { result ≡ if_shown shown (frame_of f lent.now.cells.ids.now lent.now.cells.starts.now lent.now.cells.pres.now lent.now.cells.posts.now lent.now.cells.ends.now
        (offsets_in lent.now.offsets) lent.now.presence.now index) no_frame }
{
    let id = id_shown(lent.cells.ids, index, shown);
    let ports = ports_at(
        f,
        lent.cells.pres,
        lent.cells.posts,
        lent.presence,
        index,
        shown,
    );
    let start = frame_start_at(f, lent.cells.starts, index, shown);
    let end = frame_end_at(f, lent.cells.ends, index, shown);
    let items = range_shown(f, Family::Item, lent.offsets.items, index, shown);
    let fod_platforms = range_shown(f, Family::FodPlatform, lent.offsets.fods, index, shown);
    let dreamland_whispys = range_shown(
        f,
        Family::DreamlandWhispy,
        lent.offsets.whispys,
        index,
        shown,
    );
    let stadium_transformations = range_shown(
        f,
        Family::StadiumTransformation,
        lent.offsets.stadiums,
        index,
        shown,
    );
    let version = version_shown(f.version, shown);
    let port_count = count_shown(f.port_count, shown);
    Frame {
        version,
        id,
        port_count,
        ports,
        start,
        end,
        items,
        fod_platforms,
        dreamland_whispys,
        stadium_transformations,
    }
}

pub fn frame_row(f: Frames, lent: &Lent<'_>, index: usize) -> FrameRow
    ensures { result ≡ frame_row f (lent_in lent.now) index }
{
    let judged = place_judged(judge(f, lent, 0, 0), f, Family::FrameStart, 0, index);
    let row = frame_at(f, lent, index, judged.is_ok());
    FrameRow {
        refused: number_in(judged),
        row,
    }
}
