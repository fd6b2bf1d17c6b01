// A block's texts.
ghost use Rattle.std.specs.Prelude.{◌≡◌, true, ◌+◌, ◌≤◌, length};
ghost use Rattle.start.specs.Gate.{reaches};
ghost use Rattle.read_start.specs.Start.{text_at, text_if};

use format::version::Version;
use game::start::Text;
use start::gate::Gate;

// The bytes from `at` on, up to the first zero or to the limit.
pub fn text_at(block: &[u8], at: usize, limit: usize) -> Text
    requires { (limit ≤ 50) × (at + limit ≤ length block.now) }
    ensures { result ≡ text_at block.now at limit }
{
    let mut bytes = [0u8; 50];
    let mut i = 0;
    while i < limit {
        let b = block[at + i];
        if b == 0 {
            return Text { bytes, len: i };
        }
        bytes[i] = b;
        i += 1;
    }
    Text { bytes, len: i }
}

// The text from `at` on where the version has it; otherwise no text.
pub fn text_if(block: &[u8], v: Version, g: Gate, at: usize, limit: usize) -> Text
    requires { (limit ≤ 50) × (reaches v g ≡ true → at + limit ≤ length block.now) }
    ensures { result ≡ text_if (reaches v g) block.now at limit }
{
    if g.reached(v) {
        return text_at(block, at, limit);
    }
    Text {
        bytes: [0u8; 50],
        len: 0,
    }
}
