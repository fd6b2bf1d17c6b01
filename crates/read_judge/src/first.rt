// The first event of a file.
ghost use Rattle.std.specs.Prelude.{◌≡◌, ◌≤◌, length};
ghost use Rattle.read_judge.specs.Inner.{first_at};

use format::event::GAME_START;
use format::version::Version;

// A GameStart of at least four bytes, which says a version; or anything else.
#[derive(Clone, Copy)]
pub enum First {
    Opens { version: Version, len: usize },
    Other,
}

pub fn first_event(file: &[u8], spans: &[u32], first: usize, stop: usize) -> First
    requires { (first ≤ stop) × (stop ≤ length file.now) × (length spans.now ≡ 256) }
    ensures { result ≡ first_at file.now spans.now first stop }
{
    if first < stop {
        if file[first] == GAME_START {
            let span = read_scan::event::span_of(spans, GAME_START);
            if 5 <= span {
                if span <= stop - first {
                    let version = Version::new(file[first + 1], file[first + 2], file[first + 3]);
                    return First::Opens {
                        version,
                        len: span - 1,
                    };
                }
            }
        }
    }
    First::Other
}
