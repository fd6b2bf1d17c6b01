// The rows that are not final, a window of ids at a time: swept from the last row back, a row whose id was seen is not.
ghost use Rattle.std.specs.Prelude.{◌≡◌, ◌&&◌, cond, ℕ, ◌+◌, ◌-◌, ◌≤◌, ◌<◌, length, get_or};
ghost use Rattle.game.specs.Held.{offsets_in};
ghost use Rattle.rollback.specs.Mask.{mask_of, needed};
ghost use Rattle.rollback.specs.declared.frame.Rollbacks.TheVariants.{ExceptLast};
ghost use Rattle.final_rows.specs.Inner.{in_window, bit_at, seen_after, Sized, Countable, lost_in, lost_length, Lost};

use super::sizes::{Sizes, frame_len};
use game::frames::Frames;
use game::stores::Offsets;
use players::slots::Slots;
use rollback::{place_of, scratch_len};

// How many ids a window has; its marks are a bit each.
const IDS: usize = 32_768;

// Whether the id at place p, if it is one of the window's, which begins at base, was seen; it is marked as seen.
fn seen(marks: &mut [u8], base: usize, p: usize) -> bool
    requires { length marks.old ≡ 4096 }
    ensures { (result ≡ (in_window base p && bit_at marks.old (p - base))) × (marks.new ≡ seen_after base p marks.old) }
{
    if p < base {
        return false;
    }
    let q = p - base;
    if IDS <= q {
        return false;
    }
    let k = q / 8;
    let t = (q % 8) as u8;
    let old = marks[k];
    marks[k] = old | (1u8 << t);
    (old >> t) % 2 == 1
}

// The bytes of the events of the window's rows that are not final.
fn window_len(
    f: Frames,
    z: Sizes,
    s: Slots,
    ids: &[u32],
    offsets: &Offsets<'_>,
    presence: &[u8],
    base: usize,
) -> usize
    requires { Sized f.version z × Countable f s ids.now
        (offsets_in offsets.now) presence.now }
    ensures { result ≡ lost_in f ids.now
        (offsets_in offsets.now)
        presence.now base }
{
    let mut marks = [0u8; 4096];
    let mut n: usize = 0;
    for k in (0..ids.len()).rev() {
        let p = place_of(ids[k]);
        if seen(&mut marks, base, p) {
            n += frame_len(f, z, s, offsets, presence, k);
        }
    }
    n
}

// The bytes of the events of all rows that are not final.
pub fn lost_len(
    f: Frames,
    z: Sizes,
    s: Slots,
    ids: &[u32],
    offsets: &Offsets<'_>,
    presence: &[u8],
) -> usize
    requires { Sized f.version z × Countable f s ids.now
        (offsets_in offsets.now) presence.now }
    ensures { result ≡ lost_length f ids.now
        (offsets_in offsets.now)
        presence.now }
{
    let windows = scratch_len(ids).div_ceil(IDS);
    let mut n: usize = 0;
    for w in 0..windows {
        n += window_len(f, z, s, ids, offsets, presence, w * IDS);
    }
    n
}

// The window's rows that are not final get 1 in the mask.
fn window_mask(ids: &[u32], mask: &mut [u8], base: usize)
    requires { (length mask.old ≡ length ids.now) × (needed ids.now ≤ 1048576) }
    ensures { Lost ids.now base 0 mask.old mask.new }
{
    let mut marks = [0u8; 4096];
    for k in (0..ids.len()).rev() {
        let p = place_of(ids[k]);
        if seen(&mut marks, base, p) {
            mask[k] = 1;
        }
    }
}

// The ExceptLast mask.
pub fn mask_rows(ids: &[u32], mask: &mut [u8])
    requires { (length mask.old ≡ length ids.now) × (needed ids.now ≤ 1048576) }
    ensures { mask.new ≡ mask_of ExceptLast ids.now }
{
    mask.fill(0);
    for w in 0..scratch_len(ids).div_ceil(IDS) {
        window_mask(ids, mask, w * IDS);
    }
}
