// One end at a place. What its payload has beyond the version's size is not read.
ghost use Rattle.std.specs.Prelude.{◌≡◌, true, List, ◌+◌, ◌≤◌, ◌<◌, length};
ghost use Rattle.format.specs.File.{Ev};
ghost use Rattle.layout.specs.Payloads.{end_size};
ghost use Rattle.read_judge.specs.Inner.{Covers};
ghost use Rattle.known.specs.Known.{is_newer};
ghost use Rattle.newer_codes.specs.Places.{Laid, FirstKnown};
ghost use Rattle.newer_ends.specs.Ends.{end_span, end_here, right_at, Again};

use format::event::GAME_END;
use format::version::Version;
use layout::payloads::end_size;
use map::keys::same_text;
use newer_codes::next::next_known;
use read_scan::event::span_of;

// Whether an end of the version's size at least stands at a place.
fn is_end(file: &[u8], spans: &[u32], v: Version, at: usize, stop: usize) -> bool
    requires { Laid file.now spans.now at stop }
    ensures { (result ≡ end_here v file.now spans.now stop at)
        × (result ≡ true → (end_size v < end_span spans.now) × (at + end_span spans.now ≤ stop)) }
{
    if at < stop {
        if file[at] == GAME_END {
            return end_size(v) < span_of(spans, GAME_END);
        }
    }
    false
}

// Whether it names an initiator from -1 to 3 besides.
pub fn is_right(file: &[u8], spans: &[u32], v: Version, at: usize, stop: usize) -> bool
    requires { (is_newer v ≡ true) × Laid file.now spans.now at stop }
    ensures { (result ≡ right_at v file.now spans.now stop at)
        × (result ≡ true → (end_size v < end_span spans.now) × (at + end_span spans.now ≤ stop)) }
{
    if is_end(file, spans, v, at, stop) {
        let initiator = file[at + 2];
        if initiator <= 3 {
            return true;
        }
        return initiator == 255;
    }
    false
}

// Whether an end at a place, like one whose payload stands at another, is the last known event.
pub fn is_again(
    file: &[u8],
    spans: &[u32],
    v: Version,
    payload: usize,
    at: usize,
    stop: usize,
) -> bool
    requires { Laid file.now spans.now at stop × (payload + end_size v ≤ length file.now) }
    ensures { (raw : List Ev) → Covers file.now spans.now at stop raw → FirstKnown raw
        → Again v file.now payload raw result }
{
    if is_end(file, spans, v, at, stop) {
        let n = end_size(v);
        if same_text(file, payload, n, at + 1, n) {
            return next_known(file, spans, at + span_of(spans, GAME_END), stop) == stop;
        }
    }
    false
}
