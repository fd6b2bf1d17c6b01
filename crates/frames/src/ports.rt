// Refusals 6 and 7: the presence bytes, and the port columns.
ghost use Rattle.std.specs.Prelude.{◌≡◌, Bool, false, map, ◌+◌, ◌≤◌, ◌<◌, ltb, eqb, length, get_or, drop};
ghost use Rattle.layout.specs.Columns.{sum};
ghost use Rattle.game.specs.Frames.{ports_of, port_bytes};
ghost use Rattle.game.specs.declared.frames.PortColumn.{PortColumn};
ghost use Rattle.format.specs.Refusal.{one_of};
ghost use Rattle.players.specs.Presence.{uneven, port_uneven, ports_uneven, presence_wrong};
ghost use Rattle.frames.specs.Judge.{port_numbers, twice, ports_wrong};
ghost use Rattle.players.specs.Inner.{Modest};

use game::frames::{Frames, PortColumn};

// Whether len bytes are neither none nor a bit for each frame.
fn is_uneven(frames: usize, len: usize) -> bool
    requires { frames ≤ 1048576 }
    ensures { result ≡ uneven frames len }
{
    if len == 0 {
        return false;
    }
    len != (frames + 7) / 8
}

fn is_port_uneven(frames: usize, p: PortColumn) -> bool
    requires { frames ≤ 1048576 }
    ensures { result ≡ port_uneven frames p }
{
    if is_uneven(frames, p.leader_presence) {
        return true;
    }
    if p.has_follower() {
        return is_uneven(frames, p.follower_presence);
    }
    p.follower_presence != 0
}

// Whether one of the port columns from index k on passes a test.
fn some_port<F: Fn(PortColumn) -> bool>(f: Frames, k: usize, test: F) -> bool
    requires { F.IsAlwaysCallable test }
    ensures { (p : PortColumn → Bool)
        → ((x : PortColumn) (b : Bool) → F.post test x b → b ≡ p x)
        → result ≡ one_of (map p (drop k (ports_of f))) }
{
    let columns = f.ports_in();
    for j in k..columns {
        if test(f.port(j)) {
            return true;
        }
    }
    false
}

fn are_ports_uneven(f: Frames) -> bool
    requires { Modest f }
    ensures { result ≡ ports_uneven f }
{
    let frames = f.counts.frames;
    some_port(
        f,
        0,
        |p|
            requires { frames ≤ 1048576 }
            ensures { result ≡ port_uneven frames p }
        { is_port_uneven(frames, p) },
    )
}

// How many presence bytes all slots have together.
fn presence_bytes(f: Frames) -> usize
    requires { Modest f × (ports_uneven f ≡ false) }
    ensures { result ≡ sum (map port_bytes (ports_of f)) }
{
    let columns = f.ports_in();
    let mut n: usize = 0;
    for k in 0..columns {
        n += f.port(k).bytes();
    }
    n
}

pub fn presence_wrong(f: Frames, presence: &[u8]) -> bool
    requires { Modest f }
    ensures { result ≡ presence_wrong f presence.now }
{
    if are_ports_uneven(f) {
        return true;
    }
    presence.len() != presence_bytes(f)
}

fn port_number(f: Frames, k: usize) -> u8
    requires { k < length (port_numbers f) }
    ensures { result ≡ get_or (port_numbers f) k 0 }
{
    let p = f.port(k);
    p.port
}

fn port_above(f: Frames) -> bool
    ensures { result ≡ one_of (map (ltb 3) (port_numbers f)) }
{
    some_port(f, 0, |p| 3 < p.port)
}

// Whether a port stands among those from index k on.
fn port_again(f: Frames, port: u8, k: usize) -> bool
    ensures { result ≡ one_of (map (eqb port) (drop k (port_numbers f))) }
{
    some_port(f, k, |p| port == p.port)
}

fn port_twice(f: Frames) -> bool
    ensures { result ≡ twice (port_numbers f) }
{
    let columns = f.ports_in();
    for k in 0..columns {
        let port = port_number(f, k);
        if port_again(f, port, k + 1) {
            return true;
        }
    }
    false
}

pub fn ports_wrong(f: Frames) -> bool
    ensures { result ≡ ports_wrong f }
{
    if 4 < f.port_count {
        return true;
    }
    if port_above(f) {
        return true;
    }
    port_twice(f)
}
