// What a version's record of a family looks like, worked out once and then used for every record.
ghost use Rattle.std.specs.Prelude.{◌≡◌, map, ◌+◌, ◌≤◌, ◌<◌, length, get_or, replicate};
ghost use Rattle.wire.specs.Wire.{part};
ghost use Rattle.layout.specs.Columns.{widths_of, size_of};
ghost use Rattle.layout.specs.Inner.{column_of, table, Widths, RunsOf};

use super::columns::{COLUMNS, Family, column_of};
use format::version::Version;

// The columns of a version's record: how many, their bytes, and the width of each.
#[derive(Clone, Copy)]
pub struct Listing {
    pub count: usize,
    pub bytes: usize,
    pub widths: [u8; 32],
}

// How many columns a version's record has, by the table that is lent. A version has the first of its family's columns, so they are passed from the last one on:
// of the newest version one is looked at.
fn had(all: &[u16], f: Family, v: Version) -> usize
    requires { map column_of all.now ≡ table }
    ensures { (result ≡ length (widths_of f v)) × (result ≤ 32) }
{
    for n in (0..f.count()).rev() {
        let c = column_of(all[f.first() + n]);
        if v.gte(c.major, c.minor) {
            return n + 1;
        }
    }
    0
}

pub fn columns(f: Family, v: Version) -> usize
    ensures { (result ≡ length (widths_of f v)) × (result ≤ 32) }
{
    let all = COLUMNS;
    had(&all, f, v)
}

pub fn widths(f: Family, v: Version) -> Listing
    ensures { Widths f v result.count result.bytes result.widths }
{
    let all = COLUMNS;
    let count = had(&all, f, v);
    let mut widths = [0u8; 32];
    let mut bytes: usize = 0;
    for i in 0..count {
        let c = column_of(all[f.first() + i]);
        widths[i] = c.width;
        bytes += wire::wide(c.width);
    }
    Listing {
        count,
        bytes,
        widths,
    }
}

// How many of the widths from k on, and before n, are as the one at k.
fn alike(widths: &[u8], k: usize, n: usize) -> usize
    requires { (k < n) × (n ≤ length widths.now) }
    ensures { (0 < result) × (k + result ≤ n) × (part widths.now k result ≡ replicate result (get_or widths.now k 0)) }
{
    let w = widths[k];
    for m in 1..n - k {
        if widths[k + m] != w {
            return m;
        }
    }
    n - k
}

// The same columns as runs of one width: how many runs, the width of each, and how many columns it has.
// The cells of a run stand together in a store, so that one loop with one limit judges them.
#[derive(Clone, Copy)]
pub struct Runs {
    pub columns: usize,
    pub count: usize,
    pub widths: [u8; 32],
    pub lengths: [u8; 32],
}

pub fn runs_of(f: Family, v: Version) -> Runs
    ensures { RunsOf f v result }
{
    let c = widths(f, v);
    let all = c.widths;
    let n = c.count;
    let mut widths = [0u8; 32];
    let mut lengths = [0u8; 32];
    let mut runs: usize = 0;
    let mut k: usize = 0;
    // Each turn passes a whole run, and finds how long it is: no range counts so.
    while k < n {
        let m = alike(&all, k, n);
        widths[runs] = all[k];
        lengths[runs] = m as u8;
        runs += 1;
        k += m;
    }
    Runs {
        columns: n,
        count: runs,
        widths,
        lengths,
    }
}

// How many bytes the columns of a version's record take.
pub fn size(f: Family, v: Version) -> usize
    ensures { (result ≡ size_of f v) × (result ≤ 128) }
{
    let c = widths(f, v);
    c.bytes
}
