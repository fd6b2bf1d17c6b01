// The reader of a map's body.
ghost use Rattle.std.specs.Prelude.{◌≡◌, Ok, Err, ◌+◌, ◌<◌, ◌≤◌, length};
ghost use Rattle.map_reader.specs.Read.{value_read_at, map_read_at};
ghost use Rattle.map_reader.specs.Back.{size_value, entry_count};
ghost use Rattle.map_reader.specs.Answer.{whole_map, ReadMapOutcome, map_read};
ghost use Rattle.map_reader.specs.Inner.{Whole, read_numbers};

use crate::fill::fill_map;
use crate::get::{byte_at, no_text, other_wrong, text_stop};
use crate::keys::repeated;
use format::refusal::Refusal;

// The place after what was read, and how many entries it has, those inside too.
#[derive(Clone, Copy)]
pub struct Read {
    pub stop: usize,
    pub entries: usize,
}

// What is wrong, and where.
#[derive(Clone, Copy)]
pub struct WrongAt {
    pub refusal: Refusal,
    pub place: usize,
}

fn wrong(refusal: Refusal, place: usize) -> Result<Read, WrongAt>
    ensures { result ≡ Err (record { refusal = refusal; place = place }) }
{
    Err(WrongAt { refusal, place })
}

fn well(stop: usize, entries: usize) -> Result<Read, WrongAt>
    ensures { result ≡ Ok (record { stop = stop; entries = entries }) }
{
    Ok(Read { stop, entries })
}

// The value at p. Its maps may nest `depth` deep, itself counted.
#[cycle(read_map_read_value)]
pub fn read_value(b: &[u8], p: usize, depth: usize) -> Result<Read, WrongAt>
    requires { p ≤ length b.now }
    ensures { ((read_numbers result).refusal ≡ (value_read_at b.now depth p).refusal) × ((read_numbers result).stop ≡ (value_read_at b.now depth p).stop)
        × ((read_numbers result).refusal ≡ 0 → (p + (read_numbers result).entries < (read_numbers result).stop) × ((read_numbers result).stop ≤ length b.now) × ((read_numbers result).entries ≡ size_value (value_read_at b.now depth p).value)) }
{
    let mark = byte_at(b, p);
    if mark == 0x53 {
        let stop = text_stop(b, p + 1);
        if stop == 0 {
            return wrong(no_text(b, p + 1), p + 1);
        }
        return well(stop, 0);
    }
    if mark == 0x6c {
        if p + 5 <= b.len() {
            return well(p + 5, 0);
        }
        return wrong(Refusal::BadBody, p);
    }
    if mark == 0x7b {
        if depth == 0 {
            return wrong(Refusal::TooDeep, p);
        }
        let inner = read_map(b, p + 1, depth - 1)?;
        if byte_at(b, inner.stop) == 0x7d {
            return well(inner.stop + 1, inner.entries);
        }
        return wrong(other_wrong(b, inner.stop), inner.stop);
    }
    wrong(Refusal::BadBody, p)
}

// The entries from `at` on, as far as there are any.
#[cycle(read_map_read_value)]
pub fn read_map(b: &[u8], at: usize, depth: usize) -> Result<Read, WrongAt>
    requires { at ≤ length b.now }
    ensures { ((read_numbers result).refusal ≡ (map_read_at b.now depth at).refusal) × ((read_numbers result).stop ≡ (map_read_at b.now depth at).stop)
        × ((read_numbers result).refusal ≡ 0 → (at + (read_numbers result).entries ≤ (read_numbers result).stop) × ((read_numbers result).stop ≤ length b.now) × ((read_numbers result).entries ≡ entry_count (map_read_at b.now depth at).map)) }
{
    let mut p = at;
    let mut n: usize = 0;
    // No `for`: how many entries there are shows only as they are read.
    while byte_at(b, p) == 0x55 {
        let stop = text_stop(b, p);
        if stop == 0 {
            return wrong(Refusal::BadBody, p);
        }
        if repeated(b, at, p, depth) {
            return wrong(Refusal::RepeatedKey, p);
        }
        let v = read_value(b, stop, depth)?;
        p = v.stop;
        n = n + 1 + v.entries;
    }
    well(p, n)
}

// How many entries a map has itself, and how many in all.
#[derive(Clone, Copy)]
pub struct Counts {
    pub count: usize,
    pub entries: usize,
}

// What is read of a whole body: its entries end where it does.
fn read_whole(b: &[u8]) -> Result<Read, WrongAt>
    ensures { ((read_numbers result).refusal ≡ (whole_map b.now).refusal) × ((read_numbers result).refusal ≡ 0 → Whole b.now (read_numbers result).entries)
        × (((read_numbers result).refusal ≡ 0 → ⊥) → (read_numbers result).stop ≡ (whole_map b.now).stop) }
{
    let g = read_map(b, 0, 8)?;
    if g.stop == b.len() {
        return Ok(g);
    }
    wrong(other_wrong(b, g.stop), g.stop)
}

// The entries of a body, five cells each, with their texts where they stand in the body. A refusal that names no place says 0.
pub fn read_body(b: &[u8], rows: &mut [u32]) -> Result<Counts, WrongAt>
    ensures { ReadMapOutcome b.now rows.old rows.new (map_read result) }
{
    let g = read_whole(b)?;
    if 65535 < b.len() {
        return Err(WrongAt {
            refusal: Refusal::TooMany,
            place: 0,
        });
    }
    if rows.len() < 5 * g.entries {
        return Err(WrongAt {
            refusal: Refusal::ShortOutput,
            place: 0,
        });
    }
    let f = fill_map(b, 0, 8, rows, 0);
    Ok(Counts {
        count: f.count,
        entries: g.entries,
    })
}
