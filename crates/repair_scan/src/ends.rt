// The ends of a game behind its frames.
ghost use Rattle.std.specs.Prelude.{◌≡◌, ◌≤◌, length};
ghost use Rattle.repair_scan.specs.Inner.{is_good, ends_to, ends_from};
ghost use Rattle.read_outline.specs.Inner.{ends_at};

use crate::rest::is_short;
use format::version::Version;
use layout::payloads::end_size;
use read_outline::answer::Ends;

// Whether ends fill what stands from a place to another.
fn ends_to(file: &[u8], spans: &[u32], v: Version, at: usize, to: usize, stop: usize) -> bool
    requires { (at ≤ to) × (stop ≤ length file.now) × (length spans.now ≡ 256) }
    ensures { result ≡ ends_to v file.now spans.now stop at to }
{
    if to <= stop {
        if is_short(to) {
            let e = read_outline::ends(file, spans, v, at, to);
            match e {
                Ends::Good { count: _ } => {
                    return true;
                }
                Ends::Wrong => {
                    return false;
                }
            }
        }
    }
    false
}

// Where two ends that begin at a place end, or one, or none.
pub fn ends_from(file: &[u8], spans: &[u32], v: Version, at: usize, stop: usize) -> usize
    requires { (at ≤ stop) × (stop ≤ length file.now) × (length spans.now ≡ 256) }
    ensures { result ≡ ends_from v file.now spans.now stop at }
{
    let n = 1 + end_size(v);
    let one = at + n;
    let two = one + n;
    if ends_to(file, spans, v, at, two, stop) {
        return two;
    }
    if ends_to(file, spans, v, at, one, stop) {
        return one;
    }
    at
}
