// Refusal 5: the offsets, by which a frame finds its rows.
ghost use Rattle.std.specs.Prelude.{◌≡◌, ◌≤◌};
ghost use Rattle.game.specs.Held.{offsets_in};
ghost use Rattle.frames.specs.Judge.{falls, strays, misleads, offsets_mislead};
ghost use Rattle.players.specs.Inner.{Modest};

use game::frames::Frames;
use game::stores::Offsets;
use layout::columns::Family;

// Whether an offset is below the one before it. All of them are looked at, several at a time: nearly always none is.
fn one_falls(os: &[u32]) -> bool
    ensures { result ≡ falls os.now }
{
    let mut found = false;
    for i in 1..os.len() {
        found = found | (os[i] < os[i - 1]);
    }
    found
}

// Whether the offsets of a family are not a range of its rows for each frame.
fn offsets_stray(os: &[u32], frames: usize, rows: usize) -> bool
    requires { frames ≤ 1048576 }
    ensures { result ≡ strays frames rows os.now }
{
    if os.len() != frames + 1 {
        return true;
    }
    if os[0] != 0 {
        return true;
    }
    if one_falls(os) {
        return true;
    }
    os[frames] as usize != rows
}

fn family_misleads(f: Frames, family: Family, os: &[u32]) -> bool
    requires { Modest f }
    ensures { result ≡ misleads f family os.now }
{
    let rows = f.rows(family);
    if family.exists(f.version) {
        return offsets_stray(os, f.counts.frames, rows);
    }
    (os.len() != 0) | (rows != 0)
}

pub fn offsets_mislead(f: Frames, offsets: &Offsets<'_>) -> bool
    requires { Modest f }
    ensures { result ≡ offsets_mislead f (offsets_in offsets.now) }
{
    let item = family_misleads(f, Family::Item, offsets.items);
    let fod = family_misleads(f, Family::FodPlatform, offsets.fods);
    let whispy = family_misleads(f, Family::DreamlandWhispy, offsets.whispys);
    let stadium = family_misleads(f, Family::StadiumTransformation, offsets.stadiums);
    item | (fod | (whispy | stadium))
}
