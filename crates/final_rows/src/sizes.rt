// How many bytes the events of one frame have.
ghost use Rattle.std.specs.Prelude.{◌≡◌, cond, ◌+◌, ◌*◌, ◌≤◌, ◌<◌};
ghost use Rattle.game.specs.Frames.{slots_of};
ghost use Rattle.game.specs.Held.{offsets_in};
ghost use Rattle.players.specs.Inner.{Slotted, Modest};
ghost use Rattle.frames.specs.Inner.{Placed};
ghost use Rattle.layout.specs.declared.columns.Family.TheVariants.{Item, FodPlatform, DreamlandWhispy, StadiumTransformation};
ghost use Rattle.events.specs.Length.{event_size, players_over, rows_between};
ghost use Rattle.final_rows.specs.Inner.{length_of, Sized};

use format::version::Version;
use game::frames::Frames;
use game::stores::Offsets;
use layout::columns::Family;
use layout::payloads::record_size;
use players::presence::is_present;
use players::slots::Slots;

// The bytes of a frame's start and end, of a player's Pre and Post, and of a row of each family with offsets; none where the version lacks them.
#[derive(Clone, Copy)]
pub struct Sizes {
    pub frame: usize,
    pub player: usize,
    pub item: usize,
    pub fod: usize,
    pub whispy: usize,
    pub stadium: usize,
}

fn size_of(v: Version, family: Family) -> usize
    ensures { (result ≡ event_size v family) × (result ≤ 256) }
{
    if family.exists(v) {
        return 1 + record_size(family, v);
    }
    0
}

pub fn sizes_of(v: Version) -> Sizes
    ensures { Sized v result }
{
    let start = size_of(v, Family::FrameStart);
    let end = size_of(v, Family::FrameEnd);
    let pre = size_of(v, Family::Pre);
    let post = size_of(v, Family::Post);
    let item = size_of(v, Family::Item);
    let fod = size_of(v, Family::FodPlatform);
    let whispy = size_of(v, Family::DreamlandWhispy);
    let stadium = size_of(v, Family::StadiumTransformation);
    Sizes {
        frame: start + end,
        player: pre + post,
        item,
        fod,
        whispy,
        stadium,
    }
}

// The rows by offsets of frame i.
fn rows_len(f: Frames, family: Family, size: usize, offsets: &[u32], i: usize) -> usize
    requires { Modest f × Placed f family offsets.now × (size ≡ event_size f.version family) × (size ≤ 256) × (i < f.counts.frames) }
    ensures { (result ≡ rows_between offsets.now i (i + 1) * event_size f.version family) × (result ≤ 1073741824) }
{
    if size == 0 {
        return 0;
    }
    let first = offsets[i] as usize;
    let next = offsets[i + 1] as usize;
    (next - first) * size
}

// How many players frame i has.
fn players_in(f: Frames, s: Slots, presence: &[u8], i: usize) -> usize
    requires { Slotted f s }
    ensures { (result ≡ players_over presence.now (slots_of f) i 1) × (result ≤ 8) }
{
    let mut n: usize = 0;
    for k in 0..s.count {
        if is_present(presence, s.at[k], s.len[k], i) {
            n += 1;
        }
    }
    n
}

pub fn frame_len(
    f: Frames,
    z: Sizes,
    s: Slots,
    offsets: &Offsets<'_>,
    presence: &[u8],
    i: usize,
) -> usize
    requires { Modest f × Slotted f s × Sized f.version z
        × (Placed f Item offsets.now.items.now × Placed f FodPlatform offsets.now.fods.now
        × Placed f DreamlandWhispy offsets.now.whispys.now × Placed f StadiumTransformation offsets.now.stadiums.now)
        × (i < f.counts.frames) }
    ensures { result ≡ length_of f
        (offsets_in offsets.now)
        presence.now i }
{
    let players = players_in(f, s, presence, i);
    let fods = rows_len(f, Family::FodPlatform, z.fod, offsets.fods, i);
    let whispys = rows_len(f, Family::DreamlandWhispy, z.whispy, offsets.whispys, i);
    let stadiums = rows_len(
        f,
        Family::StadiumTransformation,
        z.stadium,
        offsets.stadiums,
        i,
    );
    let items = rows_len(f, Family::Item, z.item, offsets.items, i);
    z.frame + (players * z.player + (fods + (whispys + (stadiums + items))))
}
