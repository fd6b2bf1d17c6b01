// Whether rows stand for a map, and how long its body is.
ghost use Rattle.std.specs.Prelude.{◌≡◌, ℕ, ◌+◌, ◌*◌, ◌<◌, ◌≤◌, ◌^◌, List, length};
ghost use Rattle.format.specs.Refused.{number_of};
ghost use Rattle.map.specs.Map.{value_bytes, body_of};
ghost use Rattle.map.specs.Rows.{worse, text_wrong, value_wrong, row_wrong, plain_of, map_at};
ghost use Rattle.map.specs.Inner.{cap_of, number_if};

use crate::put::cell;
use format::refusal::Refusal;

// The lowest refusal of all rows, the row after them, and the body's length, told up to 65,536.
#[derive(Clone, Copy)]
pub struct Judged {
    pub refusal: Option<Refusal>,
    pub next: usize,
    pub bytes: usize,
}

fn capped(n: usize) -> usize
    ensures { (result ≡ cap_of n) × (result ≤ 65536) }
{
    if 65535 < n {
        return 65536;
    }
    n
}

// The one of two refusals with the lower number. Out of line: few rows have two, and then all the others need only see that they have none.
#[inline(never)]
fn lower_of(x: Refusal, y: Refusal) -> Refusal
    ensures { number_of result ≡ worse (number_of x) (number_of y) }
{
    if y.number() < x.number() {
        return y;
    }
    x
}

// The same where there may be none.
fn lower(a: Option<Refusal>, b: Option<Refusal>) -> Option<Refusal>
    ensures { number_if result ≡ worse (number_if a) (number_if b) }
{
    let Some(x) = a else {
        return b;
    };
    let Some(y) = b else {
        return a;
    };
    Some(lower_of(x, y))
}

// What is wrong with a text.
fn text_wrong(texts: &[u8], at: usize, len: usize) -> Option<Refusal>
    requires { (at < 2 ^ 32) × (len < 2 ^ 32) }
    ensures { number_if result ≡ text_wrong texts.now at len }
{
    if 255 < len {
        return Some(Refusal::LongText);
    }
    if texts.len() < at + len {
        return Some(Refusal::BadBody);
    }
    None
}

// What is wrong with the value of row k by itself.
fn value_wrong(rows: &[u32], texts: &[u8], k: usize) -> Option<Refusal>
    requires { 5 * k + 4 < length rows.now }
    ensures { number_if result ≡ value_wrong rows.now texts.now k }
{
    // A kind is a number, as C callers store it in a cell.
    let kind = cell(rows, k, 0);
    if kind == 0 {
        return text_wrong(texts, cell(rows, k, 3), cell(rows, k, 4));
    }
    if kind <= 2 {
        return None;
    }
    Some(Refusal::BadBody)
}

// What is wrong with row k by itself.
fn row_wrong(rows: &[u32], texts: &[u8], k: usize) -> Option<Refusal>
    requires { 5 * k + 4 < length rows.now }
    ensures { number_if result ≡ row_wrong rows.now texts.now k }
{
    let value = value_wrong(rows, texts, k);
    let Some(key) = text_wrong(texts, cell(rows, k, 1), cell(rows, k, 2)) else {
        return value;
    };
    lower(Some(key), value)
}

// What was wrong before row k, or is wrong with it: nearly always nothing, so that this is asked first.
fn with_row(wrong: Option<Refusal>, rows: &[u32], texts: &[u8], k: usize) -> Option<Refusal>
    requires { 5 * k + 4 < length rows.now }
    ensures { number_if result ≡ worse (number_if wrong) (row_wrong rows.now texts.now k) }
{
    let Some(own) = row_wrong(rows, texts, k) else {
        return wrong;
    };
    lower(wrong, Some(own))
}

// How many bytes the value of row k takes, which is no map.
fn plain_size(rows: &[u32], k: usize) -> usize
    requires { 5 * k + 4 < length rows.now }
    ensures { (result < 2 ^ 33) × ((texts : List ℕ) → row_wrong rows.now texts k ≡ 0 → result ≡ length (value_bytes (plain_of rows.now texts k))) }
{
    if cell(rows, k, 0) == 0 {
        return 3 + cell(rows, k, 4);
    }
    5
}

// The map of `count` entries whose rows begin at i, and which may nest `depth` deep.
pub fn judge_map(rows: &[u32], texts: &[u8], i: usize, count: usize, depth: usize) -> Judged
    ensures { (number_if result.refusal ≡ (map_at rows.now texts.now depth i count).refusal)
        × (result.next ≡ (map_at rows.now texts.now depth i count).next)
        × (number_if result.refusal ≡ 0 → result.bytes ≡ cap_of (length (body_of (map_at rows.now texts.now depth i count).map))) × (result.bytes ≤ 65536) }
{
    let mut k = i;
    let mut bytes: usize = 0;
    let mut wrong = None;
    for _ in 0..count {
        if rows.len() / 5 <= k {
            return Judged {
                refusal: lower(wrong, Some(Refusal::BadBody)),
                next: k,
                bytes: 0,
            };
        }
        wrong = with_row(wrong, rows, texts, k);
        let key = bytes + 2 + cell(rows, k, 2);
        if cell(rows, k, 0) == 2 {
            if depth == 0 {
                wrong = lower(wrong, Some(Refusal::TooDeep));
                k += 1;
            } else {
                let inner = judge_map(rows, texts, k + 1, cell(rows, k, 3), depth - 1);
                wrong = lower(wrong, inner.refusal);
                bytes = capped(key + 2 + inner.bytes);
                k = inner.next;
            }
        } else {
            bytes = capped(key + plain_size(rows, k));
            k += 1;
        }
    }
    Judged {
        refusal: wrong,
        next: k,
        bytes,
    }
}
