// The frame input: plain data by value, in the C interface's form, which has its arrays with a count beside and its marks as bytes. The stores are lent
// beside it.
ghost use Rattle.std.specs.Prelude.{◌≡◌, ◌^◌, ◌≤◌, ◌<◌, length, get_or};
ghost use Rattle.game.specs.Frames.{follows, no_port, port_bytes, ports_of, rows_of};

use format::version::Version;
use layout::columns::Family;

// How many rows the families have: one a frame, or as many as are given.
#[repr(C)]
#[derive(Clone, Copy)]
pub struct Counts {
    pub frames: usize,
    pub items: usize,
    pub fods: usize,
    pub whispys: usize,
    pub stadiums: usize,
}

// A port column: its port, whether it has a follower (nonzero is yes), and how many presence bytes each of the two has.
#[repr(C)]
#[derive(Clone, Copy)]
pub struct PortColumn {
    pub port: u8,
    pub follower: u8,
    pub leader_presence: usize,
    pub follower_presence: usize,
}

impl PortColumn {
    pub fn has_follower(self) -> bool
        ensures { result ≡ follows self }
    {
        self.follower != 0
    }

    // How many presence bytes its slots have.
    pub fn bytes(self) -> usize
        requires { port_bytes self < 2 ^ 64 }
        ensures { result ≡ port_bytes self }
    {
        if self.has_follower() {
            return self.leader_presence + self.follower_presence;
        }
        self.leader_presence
    }
}

#[repr(C)]
#[derive(Clone, Copy)]
pub struct Frames {
    pub version: Version,
    pub counts: Counts,
    pub ports: [PortColumn; 4],
    pub port_count: usize,
}

impl Frames {
    // How many port columns count: of more than four, which are refused, the first four.
    pub fn ports_in(self) -> usize
        ensures { (result ≡ length (ports_of self)) × (result ≤ 4) }
    {
        self.port_count.min(4)
    }

    pub fn port(self, k: usize) -> PortColumn
        requires { k < length (ports_of self) }
        ensures { result ≡ get_or (ports_of self) k no_port }
    {
        self.ports[k]
    }

    // How many rows each block of a family has.
    pub fn rows(self, family: Family) -> usize
        ensures { result ≡ rows_of self family }
    {
        match family {
            Family::Pre | Family::Post | Family::FrameStart | Family::FrameEnd => self
                .counts
                .frames,
            Family::Item => self.counts.items,
            Family::FodPlatform => self.counts.fods,
            Family::DreamlandWhispy => self.counts.whispys,
            Family::StadiumTransformation => self.counts.stadiums,
        }
    }
}
