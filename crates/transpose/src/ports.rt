// The players of a frame, by their port columns: none where the frame is not shown.
ghost use Rattle.std.specs.Prelude.{◌≡◌, true, is_some};
ghost use Rattle.std.specs.Option.{unwrap_or};
ghost use Rattle.transpose.specs.Ports.{data_of, no_port_data, port_at, ports_at};
ghost use Rattle.transpose.specs.Records.{mark_at};
ghost use Rattle.transpose.specs.Inner.{if_shown, Attending, Playing, Played, Seated, nobody, no_seat, no_ports};

use super::fetch::{mark_at, post_at, pre_at};
use super::frame::{Data, PortData};
use game::frames::Frames;
use players::slots::slots_before;

// Where a port column's players are: the slots of the leader and of the follower, none where there is no such player.
#[derive(Clone, Copy)]
pub struct Seat {
    pub port: u8,
    pub leader: Option<usize>,
    pub follower: Option<usize>,
}

fn no_seat() -> Seat
    ensures { result ≡ no_seat }
{
    Seat {
        port: 0,
        leader: None,
        follower: None,
    }
}

fn seat_at(f: Frames, k: usize, shown: bool) -> Seat
    ensures { Seated f k shown result }
{
    if !shown {
        return no_seat();
    }
    if f.ports_in() <= k {
        return no_seat();
    }
    let p = f.port(k);
    let slot = slots_before(f, k);
    if p.has_follower() {
        return Seat {
            port: p.port,
            leader: Some(slot),
            follower: Some(slot + 1),
        };
    }
    Seat {
        port: p.port,
        leader: Some(slot),
        follower: None,
    }
}

// A player's mark, and 0 where there is no such player.
fn mark_of(f: Frames, presence: &[u8], slot: Option<usize>, index: usize) -> u8
    requires { is_some slot ≡ true → Attending f (unwrap_or slot 0) }
    ensures { result ≡ if_shown (is_some slot) (mark_at f presence.now (unwrap_or slot 0) index) 0 }
{
    mark_at(f, presence, slot.unwrap_or(0), index, slot.is_some())
}

// What a player does in a frame, whose mark is known.
fn data_at(
    f: Frames,
    pres: &[u32],
    posts: &[u32],
    slot: Option<usize>,
    index: usize,
    mark: u8,
) -> Data
    requires { is_some slot ≡ true → Playing f pres.now posts.now (unwrap_or slot 0) index }
    ensures { result ≡ if_shown (is_some slot) (data_of f pres.now posts.now (unwrap_or slot 0) index mark) (nobody mark) }
{
    let at = slot.unwrap_or(0);
    let shown = slot.is_some();
    let pre = pre_at(f, pres, at, index, mark, shown);
    let post = post_at(f, posts, at, index, mark, shown);
    Data {
        present: mark,
        pre,
        post,
    }
}

// The k-th port column's players, or none: one literal for every case, since each one more would take its room on the stack.
fn port_at(
    f: Frames,
    pres: &[u32],
    posts: &[u32],
    presence: &[u8],
    index: usize,
    k: usize,
    shown: bool,
) -> PortData
    requires { shown ≡ true → Played f pres.now posts.now index }
    ensures { result ≡ if_shown shown (port_at f pres.now posts.now presence.now index k) no_port_data }
{
    let s = seat_at(f, k, shown);
    let first = mark_of(f, presence, s.leader, index);
    let second = mark_of(f, presence, s.follower, index);
    let leader = data_at(f, pres, posts, s.leader, index, first);
    let follower = data_at(f, pres, posts, s.follower, index, second);
    PortData {
        port: s.port,
        follower_given: u8::from(s.follower.is_some()),
        leader,
        follower,
    }
}

pub fn ports_at(
    f: Frames,
    pres: &[u32],
    posts: &[u32],
    presence: &[u8],
    index: usize,
    shown: bool,
) -> [PortData; 4]
    requires { shown ≡ true → Played f pres.now posts.now index }
    ensures { result ≡ if_shown shown (ports_at f pres.now posts.now presence.now index) no_ports }
{
    let a = port_at(f, pres, posts, presence, index, 0, shown);
    let b = port_at(f, pres, posts, presence, index, 1, shown);
    let c = port_at(f, pres, posts, presence, index, 2, shown);
    let d = port_at(f, pres, posts, presence, index, 3, shown);
    [a, b, c, d]
}
