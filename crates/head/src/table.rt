// The head of a replay: its signature, the declared length of its event data, and its payload table.
ghost use Rattle.std.specs.Prelude.{◌≡◌, true, false, not, ◌+◌, ◌*◌, ◌≤◌, ◌<◌, length, drop};
ghost use Rattle.wire.specs.Wire.{number, part};
ghost use Rattle.head.specs.Table.{stop_of, all_present, entries_in, table_of, first_place, code_twice, table_missing, unsigned};
ghost use Rattle.head.specs.Inner.{list_of, Sound, Blank, Indexed, Agree, HeadOf};

use format::event::{FILE_SIGNATURE, PAYLOADS};
use format::refusal::{BAD_TABLE, NOT_A_REPLAY};

// The payload table: codes, the sizes of their payloads, and how many there are. A size byte counts no more than 84.
#[derive(Clone, Copy)]
pub struct Table {
    pub codes: [u8; 84],
    pub sizes: [u16; 84],
    pub len: usize,
}

// Where the event data that is present ends, and whether that is its declared end.
#[derive(Clone, Copy)]
pub struct Bounds {
    pub stop: usize,
    pub whole: bool,
}

// The number and offset of a refusal, or 0 and what reading events needs beside the table's index.
#[derive(Clone, Copy)]
pub struct Head {
    pub refusal: u8,
    pub offset: usize,
    pub table: Table,
    pub first: usize,
    pub stop: usize,
    pub whole: bool,
}

// How many bytes an event takes: its code's and its payload's.
pub fn span(size: u16) -> u32
    ensures { result ≡ 1 + size }
{
    1 + size as u32
}

// The two bytes at `at`, as a payload's size.
fn size_at(file: &[u8], at: usize) -> u16
    requires { at + 1 < length file.now }
    ensures { result ≡ number (part file.now at 2) }
{
    u16::from_be_bytes([file[at], file[at + 1]])
}

// Event data runs from 15 for the declared length, or to a cut; where the length is zero, it was never filled in, and the data is cut.
fn bounds_of(file: &[u8]) -> Bounds
    requires { 15 ≤ length file.now }
    ensures { (result.stop ≡ stop_of file.now) × (result.whole ≡ all_present file.now) × (result.stop ≤ length file.now) }
{
    let declared = wire::get_be(file, 11, 4) as usize;
    if 0 < declared && 15 + declared <= file.len() {
        Bounds {
            stop: 15 + declared,
            whole: true,
        }
    } else {
        Bounds {
            stop: file.len(),
            whole: false,
        }
    }
}

// Whether no table stands at 15, in event data that ends at stop.
fn table_missing(file: &[u8], stop: usize) -> bool
    requires { (stop ≡ stop_of file.now) × (stop ≤ length file.now) }
    ensures { result ≡ table_missing file.now }
{
    if stop < 17 {
        return true;
    }
    if file[15] != PAYLOADS {
        return true;
    }
    let size = wire::wide(file[16]);
    if size % 3 != 1 {
        return true;
    }
    stop < 16 + size
}

// The n entries from 17 on.
fn entries(file: &[u8], n: usize) -> Table
    requires { (n ≤ 84) × (17 + 3 * n ≤ length file.now) }
    ensures { (list_of result ≡ entries_in n (drop 17 file.now)) × Sound result }
{
    let mut codes = [0u8; 84];
    let mut sizes = [0u16; 84];
    for i in 0..n {
        let at = 17 + 3 * i;
        codes[i] = file[at];
        sizes[i] = size_at(file, at + 1);
    }
    Table {
        codes,
        sizes,
        len: n,
    }
}

// The index by code, filled from the last entry to the first: how many bytes an event takes, code and payload, and 0 where the table lacks
// the code. Answers whether no code stands twice.
fn index_of(t: Table, spans: &mut [u32]) -> bool
    requires { (t.len ≤ 84) × Blank spans.old }
    ensures value { result ≡ not (code_twice (list_of t)) }
    ensures indexed { code_twice (list_of t) ≡ false → Indexed spans.new (list_of t) × Agree t.codes t.sizes t.len spans.new }
{
    for i in (0..t.len).rev() {
        let c = wire::wide(t.codes[i]);
        if 0 < spans[c] {
            return false;
        }
        spans[c] = span(t.sizes[i]);
    }
    true
}

fn refused(refusal: u8, offset: usize) -> Head
    ensures { (result.refusal ≡ refusal) × (result.offset ≡ offset) }
{
    let table = Table {
        codes: [0u8; 84],
        sizes: [0u16; 84],
        len: 0,
    };
    Head {
        refusal,
        offset,
        table,
        first: 0,
        stop: 0,
        whole: false,
    }
}

// The table and the event data of a file whose signature is right.
fn tabled(file: &[u8], spans: &mut [u32]) -> Head
    requires { (15 ≤ length file.now) × (unsigned file.now ≡ false) × Blank spans.old }
    ensures { HeadOf result spans.new file.now }
{
    let b = bounds_of(file);
    let stop = b.stop;
    if table_missing(file, stop) {
        return refused(BAD_TABLE, 15);
    }
    let n = wire::wide(file[16]) / 3;
    let table = entries(file, n);
    if index_of(table, spans) {
        Head {
            refusal: 0,
            offset: 0,
            table,
            first: 17 + 3 * n,
            stop,
            whole: b.whole,
        }
    } else {
        refused(BAD_TABLE, 15)
    }
}

// The head of any file. The table's index goes where the caller has room for it: by value its 1,024 bytes would be copied at every
// return on the way.
pub fn parse_head(file: &[u8], spans: &mut [u32]) -> Head
    requires { Blank spans.old }
    ensures { HeadOf result spans.new file.now }
{
    if file.len() < 15 {
        return refused(NOT_A_REPLAY, 0);
    }
    if file.starts_with(&FILE_SIGNATURE) {
        tabled(file, spans)
    } else {
        refused(NOT_A_REPLAY, 0)
    }
}

// Where the events of a file start: after its table, three bytes an entry.
pub fn first_place(file: &[u8]) -> usize
    ensures { result ≡ first_place (table_of file.now) }
{
    if file.len() < 17 {
        return 17;
    }
    17 + 3 * (wire::wide(file[16]) / 3)
}
