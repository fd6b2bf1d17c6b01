// The ends of a replay: at most two, whatever they say.
ghost use Rattle.std.specs.Prelude.{◌≡◌, true, ◌+◌};
ghost use Rattle.read_outline.specs.Inner.{Within};
ghost use Rattle.check_parts.specs.Inner.{ends_fill};

use format::version::Version;
use layout::payloads::end_size;
use read_outline::end::is_end;

// Whether none, one or two of them fill the rest.
pub fn ends_fill(file: &[u8], spans: &[u32], v: Version, at: usize, stop: usize) -> bool
    requires { Within file.now spans.now stop at }
    ensures { result ≡ ends_fill v file.now spans.now stop at }
{
    if at == stop {
        return true;
    }
    if is_end(file, spans, v, at, stop) {
        let n = 1 + end_size(v);
        let next = at + n;
        if next == stop {
            return true;
        }
        if is_end(file, spans, v, next, stop) {
            return next + n == stop;
        }
    }
    false
}
