// What is answered, by the parts of a replay.
ghost use Rattle.std.specs.Prelude.{◌≡◌, cond, ◌+◌, ◌≤◌, eqb, length};
ghost use Rattle.layout.specs.Payloads.{end_size};
ghost use Rattle.read_judge.specs.Found.{gecko_span};
ghost use Rattle.newer_judge.specs.Inner.{Shows};
ghost use Rattle.measure.specs.Read.{partly_of, measured_in, opened_in, unmeasured, unopened};
ghost use Rattle.measure.specs.Inner.{frames_in, lengths_in, codes_by, end_by, Small};

use super::none::{no_end, no_frames, no_game, no_lengths, no_places};
use super::tail::places;
use super::{Measured, Opened};
use crate::lengths::Lengths;
use format::version::Version;
use game::Game;
use game::end::End;
use game::frames::Frames;
use read_judge::counts_by;
use read_judge::parts::Parts;

// The frame input.
pub fn frames_in(p: Parts) -> Frames
    requires { Small p }
    ensures { result ≡ frames_in p }
{
    crate::lengths::frames_of(p.version, counts_by(p.tally), p.tally.slots)
}

// How long each store is.
pub fn lengths_in(p: Parts) -> Lengths
    requires { Small p }
    ensures { result ≡ lengths_in p }
{
    crate::lengths::lengths_of(frames_in(p), 512 * p.blocks)
}

// Codes are given from 3.3, where 3D is listed.
fn codes_by(v: Version, gecko: usize) -> u8
    ensures { result ≡ codes_by v gecko }
{
    if gecko == 0 {
        return 0;
    }
    if v.has_codes() {
        return 1;
    }
    0
}

// Whether a number is another, as a mark.
fn mark(a: usize, b: usize) -> u8
    ensures { result ≡ cond (eqb a b) 1 0 }
{
    if a == b {
        return 1;
    }
    0
}

// The mark of a newer recorder's file.
fn partly_by(v: Version) -> u8
    ensures { result ≡ partly_of v }
{
    if v.accepted() {
        return 0;
    }
    1
}

// What the first end says, where there is one.
fn end_by(file: &[u8], p: Parts) -> End
    requires { (p.ends ≡ 0 → ⊥) → p.ends_at + 1 + end_size p.version ≤ length file.now }
    ensures { result ≡ end_by file.now p }
{
    if p.ends == 0 {
        return no_end();
    }
    read_outline::end_in(file, p.ends_at + 1, p.version)
}

// What a file needs that holds these parts.
pub fn measured(file: &[u8], gecko: usize, first: usize, stop: usize, p: Parts) -> Measured
    requires { (gecko ≡ gecko_span file.now) × Shows file.now first stop p }
    ensures { (a : Shows file.now first stop p) → result ≡ measured_in file.now a.shown.found.replay }
{
    Measured {
        refused: 0,
        partly: partly_by(p.version),
        offset: 0,
        frames: frames_in(p),
        codes_given: codes_by(p.version, gecko),
        actual_size: p.actual as u32,
        lengths: lengths_in(p),
        places: places(file, first, stop, p.block_len),
    }
}

// The game of a file that holds these parts.
pub fn opened(file: &[u8], gecko: usize, first: usize, stop: usize, p: Parts) -> Opened
    requires { (gecko ≡ gecko_span file.now) × Shows file.now first stop p }
    ensures { (a : Shows file.now first stop p) → result ≡ opened_in file.now a.shown.found.replay }
{
    let at = places(file, first, stop, p.block_len);
    let start = read_start::start_in(file, first + 1, p.block_len, p.version);
    let game = Game {
        frames: frames_in(p),
        start,
        end: end_by(file, p),
        double_end: mark(p.ends, 2),
        codes_given: codes_by(p.version, gecko),
        metadata_given: mark(at.tail as usize, 1),
        actual_size: p.actual as u32,
    };
    Opened {
        refused: 0,
        partly: partly_by(p.version),
        offset: 0,
        game,
        places: at,
    }
}

// A refusal.
pub fn not_measured(number: u8, offset: usize) -> Measured
    ensures { result ≡ unmeasured number offset }
{
    Measured {
        refused: number,
        partly: 0,
        offset,
        frames: no_frames(),
        codes_given: 0,
        actual_size: 0,
        lengths: no_lengths(),
        places: no_places(),
    }
}

pub fn not_opened(number: u8, offset: usize) -> Opened
    ensures { result ≡ unopened number offset }
{
    Opened {
        refused: number,
        partly: 0,
        offset,
        game: no_game(),
        places: no_places(),
    }
}
