// The cases' own inputs, and each case's numbers.
ghost use Rattle.std.specs.Prelude.{◌≡◌, ◌+◌, ◌≤◌, [], length, replicate};
ghost use Rattle.wire.specs.Wire.{number, part};
ghost use Rattle.format.specs.Version.{version};
ghost use Rattle.game.specs.Stores.{cells, offsets, lent, stores};
ghost use Rattle.game.specs.Held.{stores_in};
ghost use Rattle.case_table.specs.Games.{game_of, block_alone, one_frame};
ghost use Rattle.case_table.specs.Table.{least, coded, answer, writing, walking, masks, four_ids, expected_at};
ghost use Rattle.case_calls.specs.Rows.{shown, WriteRow};

use super::count::count_code;
use super::row::{Row, mask_number, walk_row, write_row};
use case_table::sample::game;
use format::event::Event;
use format::version::Version;
use game::stores::{Cells, Lent, Offsets, Stores};
use rollback::frame::Rollbacks;
use wire::wide;

// In a file of 3.18 with codes and a start block of 760 bytes: where the table has the size of the codes, and where the blocks start.
const CODES_SIZE: usize = 39;

const FIRST_BLOCK: usize = 814;

const SECOND_BLOCK: usize = 1331;

// Nothing but a template.
fn template_alone<'a>(none: &'a [u32], bytes: &'a [u8], template: &'a [u8]) -> Stores<'a>
    ensures { stores_in result ≡ stores (lent
        (cells none.now none.now none.now none.now none.now none.now none.now none.now none.now)
        (offsets none.now none.now none.now none.now)
        bytes.now) template.now bytes.now bytes.now }
{
    let cells = Cells {
        ids: none,
        starts: none,
        pres: none,
        posts: none,
        ends: none,
        items: none,
        fods: none,
        whispys: none,
        stadiums: none,
    };
    let offsets = Offsets {
        items: none,
        fods: none,
        whispys: none,
        stadiums: none,
    };
    let lent = Lent {
        cells,
        offsets,
        presence: bytes,
    };
    Stores {
        lent,
        template,
        codes: bytes,
        metadata: bytes,
    }
}

// 0.1.0 and nothing else.
fn write_least(out: &mut [u8], template: &[u8]) -> Row
    ensures { WriteRow least (block_alone template.now) out.old result out.new }
{
    let none = [0u32; 0];
    let bytes = [0u8; 0];
    let v = Version {
        major: 0,
        minor: 1,
        patch: 0,
    };
    let g = game(v, 0, 0, 0, 0, 0);
    let stores = template_alone(&none, &bytes, template);
    write_row(out, g, &stores)
}

// A frame whose start and end have a row, `two` cells and `one`, as its offsets have; a leader's Pre and Post; and codes.
fn frame_alone<'a>(
    one: &'a [u32],
    two: &'a [u32],
    none: &'a [u32],
    pres: &'a [u32],
    posts: &'a [u32],
    bytes: &'a [u8],
    template: &'a [u8],
    codes: &'a [u8],
) -> Stores<'a>
    ensures { stores_in result ≡ stores (lent
        (cells one.now two.now pres.now posts.now one.now none.now none.now none.now none.now)
        (offsets two.now two.now two.now two.now)
        bytes.now) template.now codes.now bytes.now }
{
    let cells = Cells {
        ids: one,
        starts: two,
        pres,
        posts,
        ends: one,
        items: none,
        fods: none,
        whispys: none,
        stadiums: none,
    };
    let offsets = Offsets {
        items: two,
        fods: two,
        whispys: two,
        stadiums: two,
    };
    let lent = Lent {
        cells,
        offsets,
        presence: bytes,
    };
    Stores {
        lent,
        template,
        codes,
        metadata: bytes,
    }
}

// One frame of one leader at 3.18, and an end, with codes or none.
fn write_frame(out: &mut [u8], v: Version, given: u8, actual: u32, codes: &[u8]) -> Row
    ensures { WriteRow (game_of v 1 1 1 given actual) (one_frame codes.now) out.old result out.new }
{
    let none = [0u32; 0];
    let one = [0u32; 1];
    let two = [0u32; 2];
    let pres = [0u32; 19];
    let posts = [0u32; 32];
    let template = [0u8; 760];
    let bytes = [0u8; 0];
    let g = game(v, 1, 1, 1, given, actual);
    let stores = frame_alone(&one, &two, &none, &pres, &posts, &bytes, &template, codes);
    write_row(out, g, &stores)
}

pub fn case_1() -> Row
    ensures { shown result ≡ expected_at 0 }
{
    let template = [0u8; 320];
    let mut out = [0u8; 351];
    write_least(&mut out, &template)
}

// Case 1's file, cut after n bytes, and walked: cases 2 to 5.
pub fn cut(n: usize) -> Row
    ensures { shown result ≡ answer (walking least (block_alone (replicate 320 0)) n) }
{
    let template = [0u8; 320];
    let mut out = [0u8; 351];
    write_least(&mut out, &template);
    if 351 < n {
        return walk_row(&out);
    }
    walk_row(&out[..n])
}

pub fn case_12() -> Row
    ensures { shown result ≡ expected_at 16 }
{
    let template = [0u8; 319];
    let mut out = [0u8; 351];
    write_least(&mut out, &template)
}

// Cases 6 and 11: 3.18.0, and 3.18.1 with the same frame.
pub fn patch_level(patch: u8) -> Row
    ensures { shown result ≡ answer (writing (game_of (version 3 18 patch) 1 1 1 0 0) (one_frame []) 990) }
{
    let codes = [0u8; 0];
    let mut out = [0u8; 990];
    let v = Version {
        major: 3,
        minor: 18,
        patch,
    };
    write_frame(&mut out, v, 0, 0, &codes)
}

// Codes of 3.18.0: of 513 bytes, padded to 1,024.
fn write_coded(out: &mut [u8], actual: u32, codes: &[u8]) -> Row
    ensures { WriteRow (coded actual) (one_frame codes.now) out.old result out.new }
{
    let v = Version {
        major: 3,
        minor: 18,
        patch: 0,
    };
    write_frame(out, v, 1, actual, codes)
}

pub fn case_7() -> Row
    ensures { shown result ≡ expected_at 6 }
{
    let codes = [0u8; 1024];
    let mut out = [0u8; 2030];
    write_coded(&mut out, 513, &codes)
}

pub fn case_8() -> Row
    ensures { shown result ≡ expected_at 8 }
{
    let codes = [0u8; 512];
    let mut out = [0u8; 1513];
    write_coded(&mut out, 512, &codes)
}

pub fn case_9() -> Row
    ensures { shown result ≡ expected_at 10 }
{
    let codes = [0u8; 65536];
    let mut out = [0u8; 67172];
    write_coded(&mut out, 65536, &codes)
}

// A block takes 517 bytes: its code, 512 bytes, its length in two bytes, a code and its flag.
fn block_length(file: &[u8], block: usize) -> usize
    requires { block + 517 ≤ length file.now }
    ensures { result ≡ number (part file.now (block + 513) 2) }
{
    wire::get_be(file, block + 513, 2) as usize
}

fn block_flag(file: &[u8], block: usize) -> usize
    requires { block + 517 ≤ length file.now }
    ensures { result ≡ number (part file.now (block + 516) 1) }
{
    wire::get_be(file, block + 516, 1) as usize
}

// The blocks of case 7: their lengths, then their flags.
pub fn blocks_7() -> Row
    ensures { shown result ≡ expected_at 7 }
{
    let codes = [0u8; 1024];
    let mut out = [0u8; 2030];
    write_coded(&mut out, 513, &codes);
    Row {
        len: 4,
        numbers: [
            block_length(&out, FIRST_BLOCK),
            block_length(&out, SECOND_BLOCK),
            block_flag(&out, FIRST_BLOCK),
            block_flag(&out, SECOND_BLOCK),
            0,
            0,
            0,
            0,
        ],
    }
}

pub fn blocks_8() -> Row
    ensures { shown result ≡ expected_at 9 }
{
    let codes = [0u8; 512];
    let mut out = [0u8; 1513];
    write_coded(&mut out, 512, &codes);
    Row {
        len: 2,
        numbers: [
            block_length(&out, FIRST_BLOCK),
            block_flag(&out, FIRST_BLOCK),
            0,
            0,
            0,
            0,
            0,
            0,
        ],
    }
}

// The codes of case 9: the size that the table declares, and how many blocks the reader finds.
pub fn codes_9() -> Row
    ensures { shown result ≡ expected_at 11 }
{
    let codes = [0u8; 65536];
    let mut out = [0u8; 67172];
    write_coded(&mut out, 65536, &codes);
    Row {
        len: 2,
        numbers: [
            wire::get_be(&out, CODES_SIZE, 2) as usize,
            count_code(&out, Event::MessageSplitter.code()),
            0,
            0,
            0,
            0,
            0,
            0,
        ],
    }
}

// Case 10, in either mode.
pub fn masked(keep: Rollbacks) -> Row
    ensures { shown result ≡ masks keep four_ids 4 3 }
{
    let ids = [0xffff_ff85u32, 0xffff_ff86, 0xffff_ff86, 0xffff_ff87];
    let mut mask = [0u8; 4];
    let mut scratch = [0u8; 3];
    let m = rollback::rollbacks(&ids, keep, &mut mask, &mut scratch);
    Row {
        len: 5,
        numbers: [
            mask_number(m),
            wide(mask[0]),
            wide(mask[1]),
            wide(mask[2]),
            wide(mask[3]),
            0,
            0,
            0,
        ],
    }
}
