// What all records of a family share, worked out once and then used for every record.
ghost use Rattle.players.specs.Inner.{Modest};
ghost use Rattle.events.specs.Inner.{ShapeOf, ShapesOf};

use game::frames::Frames;
use layout::columns::Family;
use layout::listing::widths;
use layout::payloads::event_of;

// A family's shape: whether the version has it, its code, its rows, and its columns: how many, their bytes and their widths.
// A block has `block` cells.
#[derive(Clone, Copy)]
pub struct Shape {
    pub given: bool,
    pub code: u8,
    pub rows: usize,
    pub block: usize,
    pub count: usize,
    pub bytes: usize,
    pub widths: [u8; 32],
}

pub fn shape_of(f: Frames, family: Family) -> Shape
    requires { Modest f }
    ensures { ShapeOf f family result }
{
    let listing = widths(family, f.version);
    let given = family.exists(f.version);
    let event = event_of(family);
    let code = event.code();
    let rows = f.rows(family);
    let columns = listing.widths;
    Shape {
        given,
        code,
        rows,
        block: listing.count * rows,
        count: listing.count,
        bytes: listing.bytes,
        widths: columns,
    }
}

// The shapes of all families.
#[derive(Clone, Copy)]
pub struct Shapes {
    pub start: Shape,
    pub pre: Shape,
    pub fod: Shape,
    pub whispy: Shape,
    pub stadium: Shape,
    pub item: Shape,
    pub post: Shape,
    pub end: Shape,
}

pub fn shapes_of(f: Frames) -> Shapes
    requires { Modest f }
    ensures { ShapesOf f result }
{
    let start = shape_of(f, Family::FrameStart);
    let pre = shape_of(f, Family::Pre);
    let fod = shape_of(f, Family::FodPlatform);
    let whispy = shape_of(f, Family::DreamlandWhispy);
    let stadium = shape_of(f, Family::StadiumTransformation);
    let item = shape_of(f, Family::Item);
    let post = shape_of(f, Family::Post);
    let end = shape_of(f, Family::FrameEnd);
    Shapes {
        start,
        pre,
        fod,
        whispy,
        stadium,
        item,
        post,
        end,
    }
}
