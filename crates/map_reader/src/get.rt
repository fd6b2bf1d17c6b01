// What stands at a place of a body.
ghost use Rattle.std.specs.Prelude.{◌≡◌, ◌+◌, ◌<◌, ◌≤◌, length, get_or};
ghost use Rattle.format.specs.Refused.{number_of};
ghost use Rattle.map_reader.specs.Read.{text_stop, says, says_more, other_wrong, no_text_refusal};

use format::refusal::Refusal;

// The byte at a place; 0 behind the last.
pub fn byte_at(b: &[u8], p: usize) -> u8
    ensures { (result ≡ get_or b.now p 0) × (0 < result → p < length b.now) }
{
    if p < b.len() {
        return b[p];
    }
    0
}

// The place after the text at p, or 0 where there is none.
pub fn text_stop(b: &[u8], p: usize) -> usize
    requires { p ≤ length b.now }
    ensures { (result ≡ text_stop b.now p) × (0 < result → (p + 2 ≤ result) × (result ≤ length b.now)) }
{
    if byte_at(b, p) == 0x55 {
        let stop = p + 2 + wire::wide(byte_at(b, p + 1));
        if stop <= b.len() {
            return stop;
        }
    }
    0
}

// Whether a length of two or four bytes after p is all there, over 255 and not negative.
fn is_long(b: &[u8], p: usize, w: usize) -> bool
    requires { (p < length b.now) × (1 ≤ w) × (w ≤ 4) }
    ensures { result ≡ says b.now p w }
{
    if b.len() - p - 1 < w {
        return false;
    }
    if 128 <= b[p + 1] {
        return false;
    }
    255 < wire::get_be(b, p + 1, w)
}

// The same, of eight bytes.
fn is_longer(b: &[u8], p: usize) -> bool
    requires { p < length b.now }
    ensures { result ≡ says b.now p 8 }
{
    if b.len() - p - 1 < 8 {
        return false;
    }
    if 128 <= b[p + 1] {
        return false;
    }
    if 0 < wire::get_be(b, p + 1, 4) {
        return true;
    }
    255 < wire::get_be(b, p + 5, 4)
}

// Whether a length by another mark stands at p that says more than 255.
fn says_more(b: &[u8], p: usize) -> bool
    ensures { result ≡ says_more b.now p }
{
    let mark = byte_at(b, p);
    if mark == 0x49 {
        return is_long(b, p, 2);
    }
    if mark == 0x6c {
        return is_long(b, p, 4);
    }
    if mark == 0x4c {
        return is_longer(b, p);
    }
    false
}

// What is wrong where a text should be and no U stands.
pub fn other_wrong(b: &[u8], p: usize) -> Refusal
    ensures { (number_of result ≡ other_wrong b.now p) × (0 < number_of result) }
{
    if says_more(b, p) {
        return Refusal::LongText;
    }
    Refusal::BadBody
}

// What is wrong where a text should be and is not.
pub fn no_text(b: &[u8], p: usize) -> Refusal
    ensures { (number_of result ≡ no_text_refusal b.now p) × (0 < number_of result) }
{
    if byte_at(b, p) == 0x55 {
        return Refusal::BadBody;
    }
    other_wrong(b, p)
}
