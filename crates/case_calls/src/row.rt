// What the public calls answer, as the numbers of the table.
ghost use Rattle.std.specs.Prelude.{◌≡◌, cond};
ghost use Rattle.game.specs.Held.{stores_in};
ghost use Rattle.rollback.specs.Mask.{mask_numbers};
ghost use Rattle.de.specs.Walk.{walk_of};
ghost use Rattle.de.specs.Numbers.{walk_numbers};
ghost use Rattle.case_table.specs.Table.{listed};
ghost use Rattle.case_calls.specs.Rows.{shown, WriteRow};

use de::Walked;
use format::refusal::Refusal;
use game::Game;
use game::stores::Stores;

// The first `len` of the numbers.
#[derive(Clone, Copy)]
pub struct Row {
    pub len: usize,
    pub numbers: [usize; 8],
}

// The refusal's number; of a file that is written, 0, its length field and its length.
pub fn write_row(out: &mut [u8], g: Game, stores: &Stores<'_>) -> Row
    ensures { WriteRow g (stores_in stores.now) out.old result out.new }
{
    let w = ser::write::write(out, g, stores);
    match w {
        Ok(n) => Row {
            len: 3,
            numbers: [0, wire::get_be(out, 11, 4) as usize, n, 0, 0, 0, 0, 0],
        },
        Err(why) => Row {
            len: 1,
            numbers: [why.number() as usize, 0, 0, 0, 0, 0, 0, 0],
        },
    }
}

fn flag(b: bool) -> usize
    ensures { result ≡ cond b 1 0 }
{
    if b { 1 } else { 0 }
}

// The refusal's number and offset; events, stray bytes, whether the event data is whole, and the place where the walk stopped.
pub fn walk_row(file: &[u8]) -> Row
    ensures { shown result ≡ listed (walk_numbers (walk_of file.now)) }
{
    let w = de::walk(file);
    match w {
        Walked::Done {
            events,
            stray,
            whole,
            place,
        } => Row {
            len: 6,
            numbers: [0, 0, events, stray, flag(whole), place, 0, 0],
        },
        Walked::Refused { number, offset } => Row {
            len: 6,
            numbers: [number as usize, offset, 0, 0, 0, 0, 0, 0],
        },
    }
}

// 0 where a mask is written.
pub fn mask_number(m: Result<usize, Refusal>) -> usize
    ensures { result ≡ (mask_numbers m).number }
{
    match m {
        Ok(_) => 0,
        Err(r) => r.number() as usize,
    }
}
