// Whether a key stands twice in a map of a body.
ghost use Rattle.std.specs.Prelude.{◌≡◌};
ghost use Rattle.map_reader.specs.Read.{text_stop};
ghost use Rattle.map_reader.specs.Inner.{Ran, Repeated};

use crate::get::{byte_at, text_stop};
use crate::skip::skip_value;
use map::keys::same_text;

// Whether the key at p is that of an entry before it, from `at` on.
pub fn repeated(b: &[u8], at: usize, p: usize, depth: usize) -> bool
    requires { (text_stop b.now p ≡ 0 → ⊥) × Ran b.now depth at p }
    ensures { Repeated b.now depth at p result }
{
    let n = wire::wide(byte_at(b, p + 1));
    let mut q = at;
    // No `for`: an entry ends where its value does.
    while q < p {
        if same_text(b, q + 2, wire::wide(byte_at(b, q + 1)), p + 2, n) {
            return true;
        }
        q = skip_value(b, text_stop(b, q), depth);
    }
    false
}
