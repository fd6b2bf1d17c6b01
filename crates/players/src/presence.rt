// Presence: which players a frame has, and how many records of players a game has.
ghost use Rattle.std.specs.Prelude.{◌≡◌, false, ◌*◌, ◌%◌, ◌^◌, ◌≤◌, ◌<◌};
ghost use Rattle.std.specs.Int.Count.{ones};
ghost use Rattle.game.specs.Frames.{slots_of};
ghost use Rattle.players.specs.Inner.{Slotted, Covers, Modest};
ghost use Rattle.players.specs.Presence.{marked, count_from, players_present, presence_wrong};

use super::slots::Slots;
use game::frames::Frames;

// Whether bit i of the len presence bytes from index at on is set: the player is in frame i.
pub fn is_present(presence: &[u8], at: usize, len: u32, i: usize) -> bool
    ensures { result ≡ marked presence.now at len i }
{
    if len == 0 {
        return true;
    }
    if presence.len() <= at {
        return false;
    }
    let k = i / 8;
    if presence.len() - at <= k {
        return false;
    }
    (presence[at + k] >> ((i % 8) as u8)) % 2 == 1
}

// The set bits of a byte.
fn ones_of(b: u8) -> usize
    ensures { result ≡ ones b }
{
    u8::count_ones(b) as usize
}

// The set bits among the lowest k of a byte: the others are spare.
fn ones_below(b: u8, k: u8) -> usize
    requires { k < 8 }
    ensures { result ≡ ones (b % 2 ^ k) }
{
    u8::count_ones(b % (1u8 << k)) as usize
}

// In how many of the frames a player is, by its len presence bytes from index at on.
pub fn present_in(presence: &[u8], at: usize, len: u32, frames: usize) -> usize
    requires { Covers presence.now at len frames }
    ensures { result ≡ count_from (marked presence.now at len) 0 frames }
{
    if len == 0 {
        return frames;
    }
    let full = frames / 8;
    let mut n: usize = 0;
    for i in 0..full {
        n += ones_of(presence[at + i]);
    }
    let rest = (frames % 8) as u8;
    if rest == 0 {
        return n;
    }
    n + ones_below(presence[at + full], rest)
}

// How many players there are in all frames together.
pub fn players_present(f: Frames, s: Slots, presence: &[u8]) -> usize
    requires { Modest f × Slotted f s × (presence_wrong f presence.now ≡ false) }
    ensures { (result ≡ players_present presence.now (slots_of f) f.counts.frames) × (result ≤ 8 * f.counts.frames) }
{
    let frames = f.counts.frames;
    let mut n: usize = 0;
    for k in 0..s.count {
        let at = s.at[k];
        let len = s.len[k];
        n += present_in(presence, at, len, frames);
    }
    n
}
