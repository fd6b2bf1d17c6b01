// How many bytes a run of frames has, by counts: what is judged before anything is written.
ghost use Rattle.std.specs.Prelude.{◌≡◌, true, false, ◌-◌, ◌*◌, ◌≤◌};
ghost use Rattle.game.specs.Frames.{slots_of};
ghost use Rattle.game.specs.Held.{offsets_in};
ghost use Rattle.players.specs.Inner.{Covers, Modest, Ranges, Slotted};
ghost use Rattle.players.specs.Presence.{marked, count_from, presence_wrong};
ghost use Rattle.frames.specs.Inner.{Placed};
ghost use Rattle.layout.specs.declared.columns.Family.TheVariants.{Item, FodPlatform, DreamlandWhispy, StadiumTransformation};
ghost use Rattle.events.specs.Eights.{row_size};
ghost use Rattle.events.specs.Inner.{ShapesOf};
ghost use Rattle.events.specs.Length.{players_over, rows_between, run_length};

use events::shapes::{Shape, Shapes};
use game::frames::Frames;
use game::stores::Offsets;
use players::presence::present_in;
use players::slots::Slots;

// n records of a family that has no players; none where the version lacks it.
fn records_len(m: Shape, n: usize) -> usize
    requires { (m.bytes ≤ 128) × (n ≤ 8388608) }
    ensures { (result ≡ n * row_size m) × (result ≤ 2147483648) }
{
    if m.given {
        return n * (5 + m.bytes);
    }
    0
}

// Of such a family with offsets the rows of the frames from a on and before b.
fn rows_len(m: Shape, offsets: &[u32], frames: usize, a: usize, b: usize) -> usize
    requires { (m.bytes ≤ 128) × (m.rows ≤ 8388608) × (m.given ≡ true → Ranges frames m.rows offsets.now) × (a ≤ b) × (b ≤ frames) }
    ensures { (result ≡ rows_between offsets.now a b * row_size m) × (result ≤ 2147483648) }
{
    if m.given {
        let first = offsets[a] as usize;
        let next = offsets[b] as usize;
        return records_len(m, next - first);
    }
    0
}

// In how many of the frames from a on and before b a player is, by its len presence bytes from index at on: those before b, less those before a.
fn present_between(presence: &[u8], at: usize, len: u32, a: usize, b: usize) -> usize
    requires { Covers presence.now at len b × (a ≤ b) }
    ensures { result ≡ count_from (marked presence.now at len) a (b - a) }
{
    let before = present_in(presence, at, len, a);
    present_in(presence, at, len, b) - before
}

// How many players the frames from a on and before b have together.
fn players_between(f: Frames, s: Slots, presence: &[u8], a: usize, b: usize) -> usize
    requires { Modest f × Slotted f s × (presence_wrong f presence.now ≡ false) × (a ≤ b) × (b ≤ f.counts.frames) }
    ensures { (result ≡ players_over presence.now (slots_of f) a (b - a)) × (result ≤ 8388608) }
{
    let mut n: usize = 0;
    for k in 0..s.count {
        n += present_between(presence, s.at[k], s.len[k], a, b);
    }
    n
}

// The events of the frames from a on and before b, by the shapes of their families.
pub fn run_len(
    f: Frames,
    shapes: Shapes,
    s: Slots,
    offsets: &Offsets<'_>,
    presence: &[u8],
    a: usize,
    b: usize,
) -> usize
    requires { (Modest f × Slotted f s × (presence_wrong f presence.now ≡ false) × ShapesOf f shapes)
        × (Placed f Item offsets.now.items.now × Placed f FodPlatform offsets.now.fods.now
        × Placed f DreamlandWhispy offsets.now.whispys.now × Placed f StadiumTransformation offsets.now.stadiums.now)
        × (a ≤ b)
        × (b ≤ f.counts.frames) }
    ensures { result ≡ run_length f
        (offsets_in offsets.now)
        presence.now a b }
{
    let n = f.counts.frames;
    let players = players_between(f, s, presence, a, b);
    let starts = records_len(shapes.start, b - a);
    let pres = players * (7 + shapes.pre.bytes);
    let fods = rows_len(shapes.fod, offsets.fods, n, a, b);
    let whispys = rows_len(shapes.whispy, offsets.whispys, n, a, b);
    let stadiums = rows_len(shapes.stadium, offsets.stadiums, n, a, b);
    let items = rows_len(shapes.item, offsets.items, n, a, b);
    let posts = players * (7 + shapes.post.bytes);
    let ends = records_len(shapes.end, b - a);
    starts + (pres + (fods + (whispys + (stadiums + (items + (posts + ends))))))
}
