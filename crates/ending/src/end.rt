// The end of a game.
ghost use Rattle.std.specs.Prelude.{◌≡◌, ◌<◌};
ghost use Rattle.wire.specs.Wire.{Room, Wrote, keep};
ghost use Rattle.format.specs.Version.{has_initiator, has_placements};
ghost use Rattle.format.specs.File.{event_bytes, events_bytes};
ghost use Rattle.ending.specs.End.{placement_of, placements_of, initiator_bytes, end_of, end_events, initiator_wrong, end_wrong};

use format::event::Event;
use format::version::Version;
use game::end::End;

fn initiator_wrong(initiator: u8) -> bool
    ensures { result ≡ initiator_wrong initiator }
{
    if initiator <= 3 {
        return false;
    }
    initiator != 255
}

// Refusal 11. `double` is a mark: the end is written twice.
pub fn end_wrong(v: Version, e: End, double: u8) -> bool
    ensures { result ≡ end_wrong v e double }
{
    if e.given == 0 {
        return double != 0;
    }
    if v.has_initiator() {
        return initiator_wrong(e.initiator);
    }
    false
}

// The placement of port i's player, 255 for one who was not placed.
fn placement(e: End, i: usize) -> u8
    requires { i < 4 }
    ensures { result ≡ placement_of e i }
{
    if e.placed[i] == 0 {
        return 255;
    }
    e.placements[i]
}

fn put_four(out: &mut [u8], at: usize, e: End) -> usize
    requires { Room out.old at (placements_of e) }
    ensures { Wrote out.old out.new at result (placements_of e) }
{
    let mut p = at;
    for i in 0..4 {
        p = wire::put_u8(out, p, placement(e, i));
    }
    p
}

fn put_placements(out: &mut [u8], at: usize, v: Version, e: End) -> usize
    requires { Room out.old at (keep (has_placements v) (placements_of e)) }
    ensures { Wrote out.old out.new at result (keep (has_placements v) (placements_of e)) }
{
    if v.has_placements() {
        return put_four(out, at, e);
    }
    at
}

fn put_initiator(out: &mut [u8], at: usize, v: Version, e: End) -> usize
    requires { Room out.old at (keep (has_initiator v) (initiator_bytes e)) }
    ensures { Wrote out.old out.new at result (keep (has_initiator v) (initiator_bytes e)) }
{
    if v.has_initiator() {
        return wire::put_u8(out, at, e.initiator);
    }
    at
}

// The end as an event.
fn put_end(out: &mut [u8], at: usize, v: Version, e: End) -> usize
    requires { Room out.old at (event_bytes (end_of v e)) }
    ensures { Wrote out.old out.new at result (event_bytes (end_of v e)) }
{
    let mut p = wire::put_u8(out, at, Event::GameEnd.code());
    p = wire::put_u8(out, p, e.method);
    p = put_initiator(out, p, v, e);
    put_placements(out, p, v, e)
}

// The end, where there is one; twice, where it is doubled.
pub fn put_ends(out: &mut [u8], at: usize, v: Version, e: End, double: u8) -> usize
    requires { Room out.old at (events_bytes (end_events v e double)) }
    ensures { Wrote out.old out.new at result (events_bytes (end_events v e double)) }
{
    if e.given == 0 {
        return at;
    }
    let p = put_end(out, at, v, e);
    if double == 0 {
        return p;
    }
    put_end(out, p, v, e)
}
