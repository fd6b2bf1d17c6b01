// Whether eight frames have the same players.
ghost use Rattle.std.specs.Prelude.{◌≡◌, true, ◌+◌, ◌≤◌};
ghost use Rattle.places.specs.Inner.{Seated, Steady, Together, Whole};

use players::presence::is_present;
use players::slots::Slots;

// The eight frames from i on have a slot's player, or none of them has.
fn is_steady(presence: &[u8], at: usize, len: u32, i: usize) -> bool
    requires { i ≤ 1048576 }
    ensures { result ≡ true → Steady presence.now at len i }
{
    if len == 0 {
        return true;
    }
    let here = is_present(presence, at, len, i);
    for t in 0..8 {
        if is_present(presence, at, len, i + t) != here {
            return false;
        }
    }
    true
}

// No slot has presence bits: every player is in every frame.
pub fn is_whole(s: Slots) -> bool
    requires { Seated s }
    ensures { result ≡ true → Whole s }
{
    s.len[..s.count].iter().all(|len| *len == 0)
}

// The eight frames from i on come before frame b, and have the same players. Where every player is in every frame no bit is looked at.
pub fn is_team(whole: bool, s: Slots, presence: &[u8], i: usize, b: usize) -> bool
    requires { (whole ≡ true → Whole s) × Seated s × (i ≤ b) × (b ≤ 1048576) }
    ensures { result ≡ true → (i + 8 ≤ b) × Together s presence.now i }
{
    if b < i + 8 {
        return false;
    }
    if whole {
        return true;
    }
    for k in 0..s.count {
        if !is_steady(presence, s.at[k], s.len[k], i) {
            return false;
        }
    }
    true
}
