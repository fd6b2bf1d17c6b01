// The rows of frames that stand between the players' Pre and Post: the stage's, then the items, by offsets.
ghost use Rattle.std.specs.Prelude.{◌≡◌, true, ℕ, ◌+◌, ◌≤◌, ◌<◌, length, get_or};
ghost use Rattle.wire.specs.Wire.{Room, Wrote};
ghost use Rattle.spread.specs.Inner.{Rooms, Sown, place_at};
ghost use Rattle.players.specs.Inner.{Ranges};
ghost use Rattle.game.specs.Held.{offsets_in};
ghost use Rattle.events.specs.Inner.{middle_bytes, PerOffset, Lacking};
ghost use Rattle.events.specs.Eights.{middle_on, Absent};

use super::rows::put_rows;
use super::shapes::{Shape, Shapes};
use game::stores::{Lent, Offsets};

// Of n frames those of frame i.
pub fn put_middle(
    out: &mut [u8],
    at: usize,
    shapes: Shapes,
    lent: &Lent<'_>,
    n: usize,
    id: u32,
    i: usize,
) -> usize
    requires { (PerOffset shapes.fod lent.now.cells.fods.now lent.now.offsets.fods.now n
        × PerOffset shapes.whispy lent.now.cells.whispys.now lent.now.offsets.whispys.now n
        × PerOffset shapes.stadium lent.now.cells.stadiums.now lent.now.offsets.stadiums.now n
        × PerOffset shapes.item lent.now.cells.items.now lent.now.offsets.items.now n)
        × (i < n)
        × Room out.old at (middle_bytes shapes lent.now.cells.items.now lent.now.cells.fods.now lent.now.cells.whispys.now lent.now.cells.stadiums.now
        (offsets_in lent.now.offsets) id i) }
    ensures { Wrote out.old out.new at result (middle_bytes shapes
        lent.now.cells.items.now lent.now.cells.fods.now lent.now.cells.whispys.now lent.now.cells.stadiums.now
        (offsets_in lent.now.offsets) id i) }
{
    let mut p = put_rows(
        out,
        at,
        shapes.fod,
        lent.cells.fods,
        lent.offsets.fods,
        n,
        id,
        i,
    );
    p = put_rows(
        out,
        p,
        shapes.whispy,
        lent.cells.whispys,
        lent.offsets.whispys,
        n,
        id,
        i,
    );
    p = put_rows(
        out,
        p,
        shapes.stadium,
        lent.cells.stadiums,
        lent.offsets.stadiums,
        n,
        id,
        i,
    );
    put_rows(
        out,
        p,
        shapes.item,
        lent.cells.items,
        lent.offsets.items,
        n,
        id,
        i,
    )
}

// Frame i has no row of a family with offsets.
fn is_lacking(m: Shape, offsets: &[u32], frames: usize, i: usize) -> bool
    requires { (m.given ≡ true → Ranges frames m.rows offsets.now) × (i < frames) }
    ensures { result ≡ true → Lacking m offsets.now i }
{
    if m.given {
        return offsets[i + 1] <= offsets[i];
    }
    true
}

// Nor of any such family.
fn is_plain(shapes: Shapes, offsets: &Offsets<'_>, n: usize, i: usize) -> bool
    requires { (shapes.fod.given ≡ true → Ranges n shapes.fod.rows offsets.now.fods.now)
        × (shapes.whispy.given ≡ true → Ranges n shapes.whispy.rows offsets.now.whispys.now)
        × (shapes.stadium.given ≡ true → Ranges n shapes.stadium.rows offsets.now.stadiums.now)
        × (shapes.item.given ≡ true → Ranges n shapes.item.rows offsets.now.items.now)
        × (i < n) }
    ensures { result ≡ true → Lacking shapes.fod offsets.now.fods.now i × Lacking shapes.whispy offsets.now.whispys.now i
        × Lacking shapes.stadium offsets.now.stadiums.now i × Lacking shapes.item offsets.now.items.now i }
{
    if is_lacking(shapes.item, offsets.items, n, i) {} else {
        return false;
    }
    if is_lacking(shapes.fod, offsets.fods, n, i) {} else {
        return false;
    }
    if is_lacking(shapes.whispy, offsets.whispys, n, i) {} else {
        return false;
    }
    is_lacking(shapes.stadium, offsets.stadiums, n, i)
}

// The same as put_middle. Most frames have no such row: where frame i has none, nothing is handed on.
pub fn put_between(
    out: &mut [u8],
    at: usize,
    shapes: Shapes,
    lent: &Lent<'_>,
    n: usize,
    id: u32,
    i: usize,
) -> usize
    requires { (PerOffset shapes.fod lent.now.cells.fods.now lent.now.offsets.fods.now n
        × PerOffset shapes.whispy lent.now.cells.whispys.now lent.now.offsets.whispys.now n
        × PerOffset shapes.stadium lent.now.cells.stadiums.now lent.now.offsets.stadiums.now n
        × PerOffset shapes.item lent.now.cells.items.now lent.now.offsets.items.now n)
        × (i < n)
        × Room out.old at (middle_bytes shapes lent.now.cells.items.now lent.now.cells.fods.now lent.now.cells.whispys.now lent.now.cells.stadiums.now
        (offsets_in lent.now.offsets) id i) }
    ensures { Wrote out.old out.new at result (middle_bytes shapes
        lent.now.cells.items.now lent.now.cells.fods.now lent.now.cells.whispys.now lent.now.cells.stadiums.now
        (offsets_in lent.now.offsets) id i) }
{
    if is_plain(shapes, &lent.offsets, n, i) {
        return at;
    }
    put_middle(out, at, shapes, lent, n, id, i)
}

// Those of the eight frames from i on, each `off` behind its place; the table has from index 8 on where they end. Where it is known that
// there are none nothing is looked at, and a frame that has none is passed over.
pub fn put_middles(
    out: &mut [u8],
    places: &[usize],
    off: usize,
    calm: bool,
    shapes: Shapes,
    lent: &Lent<'_>,
    i: usize,
)
    requires { let os = offsets_in lent.now.offsets in
        let rows = middle_on shapes lent.now.cells.items.now lent.now.cells.fods.now lent.now.cells.whispys.now lent.now.cells.stadiums.now os lent.now.cells.ids.now i in
        (PerOffset shapes.fod lent.now.cells.fods.now lent.now.offsets.fods.now (length lent.now.cells.ids.now)
        × PerOffset shapes.whispy lent.now.cells.whispys.now lent.now.offsets.whispys.now (length lent.now.cells.ids.now)
        × PerOffset shapes.stadium lent.now.cells.stadiums.now lent.now.offsets.stadiums.now (length lent.now.cells.ids.now)
        × PerOffset shapes.item lent.now.cells.items.now lent.now.offsets.items.now (length lent.now.cells.ids.now))
        × (i + 8 ≤ length lent.now.cells.ids.now)
        × (16 ≤ length places.now)
        × Rooms out.old (place_at places.now 0 off) rows
        × ((t : ℕ) → t < 8 → place_at places.now 8 0 t ≡ place_at places.now 0 off t + length (rows t))
        × Absent calm rows }
    ensures { Sown out.old out.new (place_at places.now 0 off) (place_at places.now 8 0)
        (middle_on shapes lent.now.cells.items.now lent.now.cells.fods.now lent.now.cells.whispys.now lent.now.cells.stadiums.now
        (offsets_in lent.now.offsets)
        lent.now.cells.ids.now i) }
{
    if calm {
        return;
    }
    let n = lent.cells.ids.len();
    for t in 0..8 {
        let p = places[t] + off;
        if p < places[8 + t] {
            put_middle(out, p, shapes, lent, n, lent.cells.ids[i + t], i + t);
        }
    }
}
