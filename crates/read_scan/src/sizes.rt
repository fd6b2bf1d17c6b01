// How many bytes the events of each family have in a version, worked out once.
ghost use Rattle.std.specs.Prelude.{◌≡◌, ◌&&◌, ◌+◌, ◌^◌, ◌<◌, eqb};
ghost use Rattle.layout.specs.Columns.{has_family};
ghost use Rattle.layout.specs.Payloads.{record_size};
ghost use Rattle.read_scan.specs.Inner.{span_in, sizes_in, index_of};

use format::version::Version;
use layout::columns::Family;
use layout::payloads::record_size;

// The span of the family's events, codes included; where the version lacks the family, a number that is no span.
fn span_in(v: Version, family: Family) -> usize
    ensures { result ≡ span_in v family }
{
    if family.exists(v) {
        return 1 + record_size(family, v);
    }
    4294967296
}

// The spans of all families, in the order of their indices.
pub fn sizes_of(v: Version) -> [usize; 8]
    ensures { result ≡ sizes_in v }
{
    [
        span_in(v, Family::Pre),
        span_in(v, Family::Post),
        span_in(v, Family::FrameStart),
        span_in(v, Family::Item),
        span_in(v, Family::FrameEnd),
        span_in(v, Family::FodPlatform),
        span_in(v, Family::DreamlandWhispy),
        span_in(v, Family::StadiumTransformation),
    ]
}

// A family's index: its place in the declaration.
fn index(family: Family) -> usize
    ensures { (result ≡ index_of family) × (result < 8) }
{
    family as usize
}

// Whether the version has the family, with events of this span.
pub fn fits(v: Version, sizes: &[usize], family: Family, span: usize) -> bool
    requires { (sizes.now ≡ sizes_in v) × (span < 2 ^ 32) }
    ensures { result ≡ (has_family v family && eqb span (1 + record_size family v)) }
{
    span == sizes[index(family)]
}
