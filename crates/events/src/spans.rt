// What the parts of a frame take, by shapes.
ghost use Rattle.std.specs.Prelude.{◌≡◌, ◌≤◌};
ghost use Rattle.places.specs.Inner.{Seated};
ghost use Rattle.events.specs.Eights.{Slim, Spanned, row_size};

use super::shapes::{Shape, Shapes};
use places::table::{Spans, seats_in};
use players::slots::Slots;

fn row_size(m: Shape) -> usize
    requires { m.bytes ≤ 128 }
    ensures { (result ≡ row_size m) × (result ≤ 133) }
{
    if m.given {
        return 5 + m.bytes;
    }
    0
}

// What the parts of frame i take.
pub fn spans_of(shapes: Shapes, s: Slots, presence: &[u8], i: usize) -> Spans
    requires { Seated s × Slim shapes }
    ensures { Spanned shapes s presence.now i result }
{
    let n = seats_in(s, presence, i);
    let start = row_size(shapes.start);
    let end = row_size(shapes.end);
    let fod = row_size(shapes.fod);
    let whispy = row_size(shapes.whispy);
    let stadium = row_size(shapes.stadium);
    let item = row_size(shapes.item);
    Spans {
        ahead: start + n * (7 + shapes.pre.bytes),
        behind: n * (7 + shapes.post.bytes) + end,
        fod,
        whispy,
        stadium,
        item,
    }
}
