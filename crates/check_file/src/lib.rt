// Whether a file is sound: its head, the first event, then the parts of the event data, then its tail; where the parts do not hold, the walk.
#![tactic(auto)]

ghost use Rattle.std.specs.Prelude.{◌≡◌};
ghost use Rattle.head.specs.Table.{stop_of};
ghost use Rattle.read_judge.specs.Inner.{WalkDone, Headed};
ghost use Rattle.grammar.specs.Sound.{SoundEvents};
ghost use Rattle.check_file.specs.Check.{CheckOutcome};
ghost use Rattle.check_file.specs.Inner.{answer};

use check_parts::is_sound;
use de::Walked;
use format::refusal::{BAD_BODY, BAD_EVENTS, VERSION_TOO_NEW};
use read_judge::first::{First, first_event};
use tail::is_tail;

pub mod tail;

// 0 for a sound file, else the number of what is wrong first, and its place where one is named.
#[repr(C)]
#[derive(Clone, Copy)]
pub struct Checked {
    pub refused: u8,
    pub offset: usize,
}

// An answer that names no place.
fn answered(number: u8) -> Checked
    ensures { result ≡ answer number 0 }
{
    Checked {
        refused: number,
        offset: 0,
    }
}

// A file that is refused with a number, unless its walk is refused first. Only here is a file walked.
fn unless_walk_refused(file: &[u8], number: u8) -> Checked
    requires { WalkDone file.now → CheckOutcome file.now (answer number 0) }
    ensures { CheckOutcome file.now result }
{
    let w = de::walk(file);
    match w {
        Walked::Refused { number, offset } => Checked {
            refused: number,
            offset,
        },
        Walked::Done {
            events: _,
            stray: _,
            whole: _,
            place: _,
        } => answered(number),
    }
}

// The tail of a file whose events are sound.
fn check_tail(file: &[u8], stop: usize) -> Checked
    requires { SoundEvents file.now × (stop ≡ stop_of file.now) }
    ensures { CheckOutcome file.now result }
{
    if is_tail(file, stop) {
        return answered(0);
    }
    answered(BAD_BODY)
}

// A file whose head is accepted. Where its parts hold they go over every event, so that it is not walked.
fn check_events(file: &[u8], spans: &[u32], first: usize, stop: usize, whole: bool) -> Checked
    requires { Headed file.now spans.now first stop whole }
    ensures { CheckOutcome file.now result }
{
    let e = first_event(file, spans, first, stop);
    let First::Opens { version, len } = e else {
        return unless_walk_refused(file, BAD_EVENTS);
    };
    if !version.accepted() {
        return unless_walk_refused(file, VERSION_TOO_NEW);
    }
    if !whole {
        return unless_walk_refused(file, BAD_EVENTS);
    }
    let at = first + 1 + len;
    if is_sound(file, spans, version, at, stop, len) {
        return check_tail(file, stop);
    }
    unless_walk_refused(file, BAD_EVENTS)
}

// Any file.
pub fn check(file: &[u8]) -> Checked
    ensures { CheckOutcome file.now result }
{
    let mut spans = [0u32; 256];
    let h = head::table::parse_head(file, &mut spans);
    if h.refusal != 0 {
        return Checked {
            refused: h.refusal,
            offset: h.offset,
        };
    }
    check_events(file, &spans, h.first, h.stop, h.whole)
}
