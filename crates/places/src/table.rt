// Where the parts of eight frames go that have the same players: what stands before the rows by offsets of each, and what stands behind them.
ghost use Rattle.std.specs.Prelude.{◌≡◌, true, ◌+◌, ◌≤◌, ◌<◌, length};
ghost use Rattle.game.specs.Held.{offsets_in};
ghost use Rattle.places.specs.Inner.{Seated, RangesWhere, RangesAll, Bare, BareAll, Short, Laid, rows_long, middle_long, seats_on, begins_at};

use game::stores::Offsets;
use players::presence::is_present;
use players::slots::Slots;

// How many bytes a frame's parts take: its start and the Pre of its players, the Post of its players and its end, and a row of each family with offsets,
// which is 0 where the version lacks the family.
#[derive(Clone, Copy)]
pub struct Spans {
    pub ahead: usize,
    pub behind: usize,
    pub fod: usize,
    pub whispy: usize,
    pub stadium: usize,
    pub item: usize,
}

// How many players frame i has.
pub fn seats_in(s: Slots, presence: &[u8], i: usize) -> usize
    requires { Seated s }
    ensures { (result ≡ seats_on s presence.now i s.count) × (result ≤ 8) }
{
    let mut n: usize = 0;
    for k in 0..s.count {
        if is_present(presence, s.at[k], s.len[k], i) {
            n += 1;
        }
    }
    n
}

// What the rows of frame i of a family with offsets take, of `size` bytes each.
fn rows_len(size: usize, offsets: &[u32], frames: usize, i: usize) -> usize
    requires { RangesWhere size offsets.now frames × (size ≤ 133) × (i < frames) }
    ensures { (result ≡ rows_long size offsets.now i) × (result ≤ 1099511627776) }
{
    if 0 < size {
        let n = (offsets[i + 1] - offsets[i]) as usize;
        return n * size;
    }
    0
}

// The offsets of the four families come one by one, as the C interface lends them, and `offsets` of the definitions joins them.

// No frame from a on and before b has a row of a family with offsets.
fn is_bare(size: usize, offsets: &[u32], frames: usize, a: usize, b: usize) -> bool
    requires { RangesWhere size offsets.now frames × (a ≤ b) × (b ≤ frames) }
    ensures { result ≡ true → Bare size offsets.now a b }
{
    if 0 < size {
        if offsets[a] < offsets[b] {
            return false;
        }
    }
    true
}

// Nor of any such family.
pub fn is_calm(z: Spans, offsets: &Offsets<'_>, frames: usize, a: usize, b: usize) -> bool
    requires { RangesAll z (offsets_in offsets.now) frames × (a ≤ b) × (b ≤ frames) }
    ensures { result ≡ true → BareAll z (offsets_in offsets.now) a b }
{
    if !is_bare(z.item, offsets.items, frames, a, b) {
        return false;
    }
    if !is_bare(z.fod, offsets.fods, frames, a, b) {
        return false;
    }
    if !is_bare(z.whispy, offsets.whispys, frames, a, b) {
        return false;
    }
    is_bare(z.stadium, offsets.stadiums, frames, a, b)
}

// What the rows by offsets of frame i take. Where it is known to have none nothing is looked up.
fn middle_len(calm: bool, z: Spans, offsets: &Offsets<'_>, frames: usize, i: usize) -> usize
    requires { let os = offsets_in offsets.now in
        RangesAll z os frames × Short z × (i < frames) × (calm ≡ true → middle_long z os i ≡ 0) }
    ensures { result ≡ middle_long z (offsets_in offsets.now) i }
{
    if calm {
        return 0;
    }
    let fod = rows_len(z.fod, offsets.fods, frames, i);
    let whispy = rows_len(z.whispy, offsets.whispys, frames, i);
    let stadium = rows_len(z.stadium, offsets.stadiums, frames, i);
    let item = rows_len(z.item, offsets.items, frames, i);
    fod + (whispy + (stadium + item))
}

// The places of the eight frames from i on, the first of which begins at `at`: from index 0 on where they begin, from index 8 on where the Post of their players
// begin. `calm` says that no frame has a row by offsets. Answers where the last of them ends.
pub fn lay_out(
    places: &mut [usize],
    at: usize,
    z: Spans,
    calm: bool,
    offsets: &Offsets<'_>,
    frames: usize,
    i: usize,
) -> usize
    requires { let os = offsets_in offsets.now in
        (length places.old ≡ 16)
        × RangesAll z os frames
        × Short z
        × (i + 8 ≤ frames)
        × (frames ≤ 1048576)
        × (begins_at z os i at 8 ≤ 18446744073709551615)
        × (calm ≡ true → BareAll z os i (i + 8)) }
    ensures { Laid z (offsets_in offsets.now)
        i at places.new result }
{
    let mut p = at;
    for t in 0..8 {
        let rows = middle_len(calm, z, offsets, frames, i + t);
        places[t] = p;
        p += z.ahead + rows;
        places[8 + t] = p;
        p += z.behind;
    }
    p
}
