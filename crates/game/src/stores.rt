// The stores that are lent with a frame input, as one value: whoever writes, judges or shows frames is lent all of them.
ghost use Rattle.std.specs.Prelude.{◌≡◌};
ghost use Rattle.game.specs.Held.{cells_in};
ghost use Rattle.game.specs.Stores.{cells_of};

use layout::columns::Family;

// A family's columns one after another, row after row; of Pre and Post so for each slot in turn.
#[derive(Clone, Copy)]
pub struct Cells<'a> {
    pub ids: &'a [u32],
    pub starts: &'a [u32],
    pub pres: &'a [u32],
    pub posts: &'a [u32],
    pub ends: &'a [u32],
    pub items: &'a [u32],
    pub fods: &'a [u32],
    pub whispys: &'a [u32],
    pub stadiums: &'a [u32],
}

impl<'a> Cells<'a> {
    // A family's store.
    pub fn of(&self, family: Family) -> &'a [u32]
        ensures { result.now ≡ cells_of (cells_in self.now) family }
    {
        match family {
            Family::Pre => self.pres,
            Family::Post => self.posts,
            Family::FrameStart => self.starts,
            Family::Item => self.items,
            Family::FrameEnd => self.ends,
            Family::FodPlatform => self.fods,
            Family::DreamlandWhispy => self.whispys,
            Family::StadiumTransformation => self.stadiums,
        }
    }
}

// The rows of frame i are those from offset i on and before offset i + 1.
#[derive(Clone, Copy)]
pub struct Offsets<'a> {
    pub items: &'a [u32],
    pub fods: &'a [u32],
    pub whispys: &'a [u32],
    pub stadiums: &'a [u32],
}

// All that is lent: `presence` has the slots' presence bytes one after another.
#[derive(Clone, Copy)]
pub struct Lent<'a> {
    pub cells: Cells<'a>,
    pub offsets: Offsets<'a>,
    pub presence: &'a [u8],
}

// All that is lent with a game: its frames' stores, the start block's template, the codes and the metadata.
#[derive(Clone, Copy)]
pub struct Stores<'a> {
    pub lent: Lent<'a>,
    pub template: &'a [u8],
    pub codes: &'a [u8],
    pub metadata: &'a [u8],
}
