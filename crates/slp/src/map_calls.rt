// The metadata map: written from lent entries, and read back into them. An entry is five cells.
ghost use Rattle.std.specs.Prelude.{◌≡◌};
ghost use Rattle.map.specs.Write.{WriteMapOutcome};
ghost use Rattle.map_reader.specs.Answer.{ReadMapOutcome};

use answers::SlpWritten;

#[repr(C)]
#[derive(Clone, Copy)]
pub struct SlpMapRead {
    pub refused: u8,
    pub place: usize,
    pub count: usize,
    pub entries: usize,
}

#[unsafe(no_mangle)]
pub extern "C" fn slp_write_map(
    out: &mut [u8],
    cells: &[u32],
    texts: &[u8],
    count: usize,
) -> SlpWritten
    ensures { WriteMapOutcome out.old cells.now texts.now count out.new (record { refusal = result.refused; len = result.len }) }
{
    match map::write::write_map(out, cells, texts, count) {
        Ok(len) => SlpWritten { refused: 0, len },
        Err(refusal) => SlpWritten {
            refused: refusal.number(),
            len: 0,
        },
    }
}

#[unsafe(no_mangle)]
pub extern "C" fn slp_read_map(body: &[u8], cells: &mut [u32]) -> SlpMapRead
    ensures { ReadMapOutcome body.now cells.old cells.new
        (record { refusal = result.refused; place = result.place; count = result.count; entries = result.entries }) }
{
    match map_reader::read::read_body(body, cells) {
        Ok(read) => SlpMapRead {
            refused: 0,
            place: 0,
            count: read.count,
            entries: read.entries,
        },
        Err(wrong) => SlpMapRead {
            refused: wrong.refusal.number(),
            place: wrong.place,
            count: 0,
            entries: 0,
        },
    }
}
