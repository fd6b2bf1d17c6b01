// The rows of a family in a lent store, row after row, out of stores that were judged.
ghost use Rattle.std.specs.Prelude.{◌≡◌, true, false, cond, [], ℕ, ◌+◌, ◌-◌, ◌≤◌, ◌<◌};
ghost use Rattle.wire.specs.Wire.{Room, Wrote, ranged};
ghost use Rattle.players.specs.Presence.{marked};
ghost use Rattle.rows_run.specs.Run.{of_players, run_row};
ghost use Rattle.rows_run.specs.Inner.{strided, Strides, plain_row, player_row, Running};

use game::frames::Frames;
use layout::columns::Family;
use layout::listing::columns;
use players::presence::is_present;
use players::slots::slots_of;

// A record's cells: n of them, a step apart in the store.
fn put_cells(
    out: &mut [u32],
    at: usize,
    cells: &[u32],
    first: usize,
    step: usize,
    n: usize,
) -> usize
    requires { Room out.old at (strided cells.now first step n) × Strides cells.now first step n }
    ensures { Wrote out.old out.new at result (strided cells.now first step n) }
{
    for k in 0..n {
        out[at + k] = cells[first + k * step];
    }
    at + n
}

fn mark_cell(presence: &[u8], at: usize, len: u32, i: usize) -> u32
    ensures { result ≡ cond (marked presence.now at len i) 1 0 }
{
    u32::from(is_present(presence, at, len, i))
}

// The rows of a family without players from a on and before b.
fn put_plain(
    out: &mut [u32],
    cells: &[u32],
    first: usize,
    rows: usize,
    n: usize,
    a: usize,
    b: usize,
) -> usize
    requires { Room out.old 0 (ranged (plain_row cells.now first rows n) a (b - a)) × ((i : ℕ) → i < b → Strides cells.now (first + i) rows n) × (a ≤ b) }
    ensures { Wrote out.old out.new 0 result (ranged (plain_row cells.now first rows n) a (b - a)) }
{
    let mut p: usize = 0;
    for i in a..b {
        p = put_cells(out, p, cells, first + i, rows, n);
    }
    p
}

// A player's rows from a on and before b, with the mark of presence behind each row's cells.
fn put_players(
    out: &mut [u32],
    cells: &[u32],
    presence: &[u8],
    first: usize,
    rows: usize,
    n: usize,
    at: usize,
    len: u32,
    a: usize,
    b: usize,
) -> usize
    requires { Room out.old 0 (ranged (player_row cells.now presence.now first rows n at len) a (b - a))
        × ((i : ℕ) → i < b → Strides cells.now (first + i) rows n) × (a ≤ b) }
    ensures { Wrote out.old out.new 0 result (ranged (player_row cells.now presence.now first rows n at len) a (b - a)) }
{
    let mut p: usize = 0;
    for i in a..b {
        let mark = mark_cell(presence, at, len, i);
        p = put_cells(out, p, cells, first + i, rows, n);
        out[p] = mark;
        p += 1;
    }
    p
}

// The rows of a family without players.
pub fn put_plain_run(
    out: &mut [u32],
    f: Frames,
    family: Family,
    cells: &[u32],
    slot: usize,
    a: usize,
    b: usize,
) -> usize
    requires { (of_players family ≡ false) × Running f family cells.now slot a b × Room out.old 0 (ranged (run_row f family cells.now [] slot) a (b - a)) }
    ensures { Wrote out.old out.new 0 result (ranged (run_row f family cells.now [] slot) a (b - a)) }
{
    let rows = f.rows(family);
    let n = columns(family, f.version);
    put_plain(out, cells, slot * n * rows, rows, n, a, b)
}

// The rows of one of the players.
pub fn put_player_run(
    out: &mut [u32],
    f: Frames,
    family: Family,
    cells: &[u32],
    presence: &[u8],
    slot: usize,
    a: usize,
    b: usize,
) -> usize
    requires { (of_players family ≡ true) × Running f family cells.now slot a b × Room out.old 0 (ranged (run_row f family cells.now presence.now slot) a (b - a)) }
    ensures { Wrote out.old out.new 0 result (ranged (run_row f family cells.now presence.now slot) a (b - a)) }
{
    let rows = f.rows(family);
    let n = columns(family, f.version);
    let s = slots_of(f);
    put_players(
        out,
        cells,
        presence,
        slot * n * rows,
        rows,
        n,
        s.at[slot],
        s.len[slot],
        a,
        b,
    )
}
