// Where a replay may end.
ghost use Rattle.std.specs.Prelude.{◌≡◌, cond};
ghost use Rattle.repair_scan.specs.Inner.{short, few, tally_fits, rests_at};

use format::version::Version;
use read_judge::parts::changing;
use read_order::stage::{Stage, is_closed};
use read_scan::tally::Tally;

// Whether event data that ends at a place has a length of four bytes.
pub fn is_short(at: usize) -> bool
    ensures { result ≡ short at }
{
    at < 4294967311
}

// Whether no count is over its maximum.
fn is_few(t: Tally) -> bool
    ensures { result ≡ few t }
{
    if t.frames <= 1048576 {
        if t.items <= 4194304 {
            if t.fods <= 1048576 {
                if t.whispys <= 1048576 {
                    return t.stadiums <= 1048576;
                }
            }
        }
    }
    false
}

// Whether frames of which so much was counted may end at a place.
fn tally_fits(v: Version, t: Tally, at: usize) -> bool
    ensures { result ≡ tally_fits v t at }
{
    if changing(v, t) {
        if is_few(t) {
            return is_short(at);
        }
    }
    false
}

// The last place where a replay may end: this one, or the one before it.
pub fn settled(v: Version, m: Stage, t: Tally, at: usize, best: usize) -> usize
    ensures { result ≡ cond (rests_at v m t at) at best }
{
    if is_closed(v, m) {
        if tally_fits(v, t, at) {
            return at;
        }
    }
    best
}
