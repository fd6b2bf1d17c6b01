// The public call: the rows of a run as cells in a lent store, judged once, or a refusal that touches nothing.
ghost use Rattle.std.specs.Prelude.{◌≡◌, ◌-◌, ◌≤◌, ◌<◌, ◌*◌};
ghost use Rattle.wire.specs.Wire.{Room, Wrote, ranged};
ghost use Rattle.format.specs.Refused.{number_in};
ghost use Rattle.game.specs.Frames.{rows_of};
ghost use Rattle.game.specs.Stores.{cells_of};
ghost use Rattle.game.specs.Held.{cells_in, lent_in};
ghost use Rattle.rows_run.specs.Run.{family_at, no_run, row_length, run_row, RowsOutcome};
ghost use Rattle.rows_run.specs.Inner.{Running, run_refused};

use super::family::{family_of, of_players};
use super::fill::{put_plain_run, put_player_run};
use format::refusal::Refusal;
use format::version::Version;
use frames::judge::judge;
use game::frames::Frames;
use game::stores::Lent;
use layout::columns::Family;
use layout::listing::columns;
use players::slots::blocks;

// The answer: a refusal's number, or 0 and how many cells were put.
#[repr(C)]
#[derive(Clone, Copy)]
pub struct Run {
    pub refused: u8,
    pub len: usize,
}

fn row_length(version: Version, family: Family) -> usize
    ensures { (result ≡ row_length version family) × (result ≤ 33) }
{
    let n = columns(family, version);
    if of_players(family) {
        return n + 1;
    }
    n
}

// Whether there is no such family or slot, or the range is reversed or goes past the rows.
fn is_no_run(f: Frames, number: u8, slot: usize, a: usize, b: usize) -> bool
    ensures { result ≡ no_run f number slot a b }
{
    let family = family_of(number);
    (7 < number) | (blocks(f, family) <= slot) | (b < a) | (f.rows(family) < b)
}

// 13, or 12, once the stores were judged.
fn judge_run(
    f: Frames,
    number: u8,
    slot: usize,
    a: usize,
    b: usize,
    room: usize,
) -> Result<(), Refusal>
    requires { rows_of f (family_at number) ≤ 4194304 }
    ensures { number_in result ≡ run_refused 0 f number slot a b room }
{
    if is_no_run(f, number, slot, a, b) {
        return Err(Refusal::OutOfRange);
    }
    if room < (b - a) * row_length(f.version, family_of(number)) {
        return Err(Refusal::ShortOutput);
    }
    Ok(())
}

// The rows of any family, out of stores that were judged.
fn put_run(
    out: &mut [u32],
    f: Frames,
    lent: &Lent<'_>,
    family: Family,
    slot: usize,
    a: usize,
    b: usize,
) -> usize
    requires { Running f family (cells_of (cells_in lent.now.cells) family) slot a b
        × Room out.old 0 (ranged (run_row f family (cells_of (cells_in lent.now.cells) family) lent.now.presence.now slot) a (b - a)) }
    ensures { Wrote out.old out.new 0 result (ranged (run_row f family (cells_of (cells_in lent.now.cells) family) lent.now.presence.now slot) a (b - a)) }
{
    let store = lent.cells.of(family);
    if of_players(family) {
        return put_player_run(out, f, family, store, lent.presence, slot, a, b);
    }
    put_plain_run(out, f, family, store, slot, a, b)
}

// Rows a up to b of the family of that number and of the slot; the cells past them stay.
pub fn rows_of_run(
    out: &mut [u32],
    f: Frames,
    lent: &Lent<'_>,
    family: u8,
    slot: usize,
    a: usize,
    b: usize,
) -> Run
    ensures { RowsOutcome f (lent_in lent.now) family slot a b out.old result out.new }
{
    if let Err(why) = judge(f, lent, 0, 0) {
        return Run {
            refused: why.number(),
            len: 0,
        };
    }
    if let Err(why) = judge_run(f, family, slot, a, b, out.len()) {
        return Run {
            refused: why.number(),
            len: 0,
        };
    }
    let len = put_run(out, f, lent, family_of(family), slot, a, b);
    Run { refused: 0, len }
}
