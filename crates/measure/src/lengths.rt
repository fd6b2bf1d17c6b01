// What is needed to read a replay back: its frame input by counts, and how long each store is.
ghost use Rattle.std.specs.Prelude.{◌≡◌, List, [], ◌++◌, ◌+◌, ◌≤◌, ◌<◌};
ghost use Rattle.players.specs.Inner.{Modest};
ghost use Rattle.game.specs.Frames.{is_marked};
ghost use Rattle.game.specs.declared.frames.PortColumn.{PortColumn};
ghost use Rattle.measure.specs.Inner.{column_by, port_by, Listing, ports_by, frames_by, store_by, offsets_by, lengths_by};

use format::version::Version;
use game::frames::{Counts, Frames, PortColumn};
use layout::columns::Family;
use layout::listing::columns;

// How many cells, offsets, presence bytes and bytes of codes the stores take.
#[repr(C)]
#[derive(Clone, Copy)]
pub struct Lengths {
    pub ids: usize,
    pub starts: usize,
    pub pres: usize,
    pub posts: usize,
    pub ends: usize,
    pub items: usize,
    pub fods: usize,
    pub whispys: usize,
    pub stadiums: usize,
    pub item_offsets: usize,
    pub fod_offsets: usize,
    pub whispy_offsets: usize,
    pub stadium_offsets: usize,
    pub presence: usize,
    pub codes: usize,
}

// Port columns, and how many they are.
#[derive(Clone, Copy)]
struct Ports {
    ports: [PortColumn; 4],
    count: usize,
}

// Whether slot k is marked.
fn is_marked(slots: usize, k: usize) -> bool
    requires { k < 8 }
    ensures { result ≡ is_marked slots k }
{
    (slots >> k) % 2 == 1
}

// No port column.
fn no_ports() -> Ports
    ensures { Listing [] result }
{
    let none = PortColumn {
        port: 0,
        follower: 0,
        leader_presence: 0,
        follower_presence: 0,
    };
    Ports {
        ports: [none; 4],
        count: 0,
    }
}

// A port's column, with a follower or without.
fn port_column(n: u8, follows: bool, bytes: usize) -> PortColumn
    ensures { result ≡ column_by n follows bytes }
{
    if follows {
        return PortColumn {
            port: n,
            follower: 1,
            leader_presence: bytes,
            follower_presence: bytes,
        };
    }
    PortColumn {
        port: n,
        follower: 0,
        leader_presence: bytes,
        follower_presence: 0,
    }
}

// With port n's column, where its leader or its follower is marked.
fn with_port(p: Ports, slots: usize, bytes: usize, n: usize) -> Ports
    requires { (n < 4) × (p.count ≤ n) }
    ensures { (result.count ≤ n + 1) × ((xs : List PortColumn) → Listing xs p → Listing (xs ++ port_by slots bytes n) result) }
{
    let follows = is_marked(slots, 2 * n + 1);
    if is_marked(slots, 2 * n) | follows {
        let column = port_column(n as u8, follows, bytes);
        let at = p.count;
        let mut ports = p.ports;
        ports[at] = column;
        return Ports {
            ports,
            count: at + 1,
        };
    }
    p
}

// The port columns that the marked slots make.
fn ports_of(slots: usize, bytes: usize) -> Ports
    ensures { Listing (ports_by slots bytes) result }
{
    let none = no_ports();
    let a = with_port(none, slots, bytes, 0);
    let b = with_port(a, slots, bytes, 1);
    let c = with_port(b, slots, bytes, 2);
    with_port(c, slots, bytes, 3)
}

// The frame input of so many rows, where these slots were ever there.
pub fn frames_of(version: Version, counts: Counts, slots: usize) -> Frames
    requires { counts.frames ≤ 1048576 }
    ensures { result ≡ frames_by version counts slots }
{
    let p = ports_of(slots, (counts.frames + 7) / 8);
    let ports = p.ports;
    Frames {
        version,
        counts,
        ports,
        port_count: p.count,
    }
}

// How many cells a family's store has.
fn store(f: Frames, family: Family) -> usize
    requires { Modest f }
    ensures { result ≡ store_by f family }
{
    players::slots::blocks(f, family) * (columns(family, f.version) * f.rows(family))
}

// How many offsets a family has.
fn offsets(f: Frames, family: Family) -> usize
    requires { Modest f }
    ensures { result ≡ offsets_by f family }
{
    if family.exists(f.version) {
        return f.counts.frames + 1;
    }
    0
}

// How long each store is, with so many bytes of codes.
pub fn lengths_of(f: Frames, codes: usize) -> Lengths
    requires { Modest f }
    ensures { result ≡ lengths_by f codes }
{
    let frames = f.counts.frames;
    let slots = players::slots::slot_count(f);
    Lengths {
        ids: frames,
        starts: store(f, Family::FrameStart),
        pres: store(f, Family::Pre),
        posts: store(f, Family::Post),
        ends: store(f, Family::FrameEnd),
        items: store(f, Family::Item),
        fods: store(f, Family::FodPlatform),
        whispys: store(f, Family::DreamlandWhispy),
        stadiums: store(f, Family::StadiumTransformation),
        item_offsets: offsets(f, Family::Item),
        fod_offsets: offsets(f, Family::FodPlatform),
        whispy_offsets: offsets(f, Family::DreamlandWhispy),
        stadium_offsets: offsets(f, Family::StadiumTransformation),
        presence: slots * ((frames + 7) / 8),
        codes,
    }
}
