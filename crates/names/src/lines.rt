// Texts in one list of bytes: each is a line, with a line end behind it.
ghost use Rattle.std.specs.Prelude.{◌≡◌, ◌==◌, ◌+◌, ◌≤◌, length, drop, position};
ghost use Rattle.wire.specs.Wire.{Room, Wrote};
ghost use Rattle.names.specs.Inner.{first_line, lines_from, line};

// Where the first line end is.
fn first_end(s: &[u8]) -> Option<usize>
    ensures { result ≡ position (λ b. b == 10) s.now }
{
    s.iter().position(|b| *b == b'\n')
}

// Where the line ends in which a place is: at its line end, or at the end of all.
pub fn line_end(s: &[u8], at: usize) -> usize
    requires { at ≤ length s.now }
    ensures { (result ≡ at + length (first_line (drop at s.now))) × (result ≤ length s.now) }
{
    match first_end(&s[at..]) {
        Some(n) => at + n,
        None => s.len(),
    }
}

// The place behind the line in which a place is.
fn line_after(s: &[u8], at: usize) -> usize
    requires { at ≤ length s.now }
    ensures { (drop result s.now ≡ lines_from 1 (drop at s.now)) × (result ≤ length s.now) }
{
    let end = line_end(s, at);
    if end < s.len() {
        return end + 1;
    }
    end
}

// Where line n begins: at the end of all, if there are not so many.
pub fn line_start(s: &[u8], n: usize) -> usize
    ensures { (drop result s.now ≡ lines_from n s.now) × (result ≤ length s.now) }
{
    let mut at = 0;
    for _ in 0..n {
        at = line_after(s, at);
    }
    at
}

// Line n of s, at the start of out.
pub fn put_line(out: &mut [u8], s: &[u8], n: usize) -> usize
    requires { Room out.old 0 (line n s.now) }
    ensures { Wrote out.old out.new 0 result (line n s.now) }
{
    let from = line_start(s, n);
    let to = line_end(s, from);
    wire::put_bytes(out, 0, &s[from..to])
}
