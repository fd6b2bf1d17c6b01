// How many bytes an event has, by its code.
ghost use Rattle.std.specs.Prelude.{◌≡◌, ◌<◌};
ghost use Rattle.read_event.specs.Inner.{span_by};

use format::event::{
    DREAMLAND_WHISPY, FOD_PLATFORM, FRAME_END, FRAME_POST, FRAME_PRE, FRAME_START, ITEM,
    STADIUM_TRANSFORMATION,
};

#[derive(Clone, Copy)]
pub struct Spans {
    pub pre: usize,
    pub post: usize,
    pub start: usize,
    pub item: usize,
    pub end: usize,
    pub fod: usize,
    pub whispy: usize,
    pub stadium: usize,
}

// A player's event's.
pub fn player_span(z: Spans, code: u8) -> usize
    requires { code < 0x3A }
    ensures { result ≡ span_by z code }
{
    if code == FRAME_PRE {
        return z.pre;
    }
    if code == FRAME_POST {
        return z.post;
    }
    0
}

// Players' events come first: most events are.
pub fn span_of(z: Spans, code: u8) -> usize
    ensures { result ≡ span_by z code }
{
    if code < FRAME_START {
        return player_span(z, code);
    }
    if code == FRAME_START {
        return z.start;
    }
    if code == ITEM {
        return z.item;
    }
    if code == FRAME_END {
        return z.end;
    }
    if code == FOD_PLATFORM {
        return z.fod;
    }
    if code == DREAMLAND_WHISPY {
        return z.whispy;
    }
    if code == STADIUM_TRANSFORMATION {
        return z.stadium;
    }
    0
}
