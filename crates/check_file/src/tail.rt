// The tail of a file: one brace, or metadata whose body is a map's.
ghost use Rattle.std.specs.Prelude.{◌≡◌, ◌≤◌, length, drop};
ghost use Rattle.check_file.specs.Inner.{is_body, is_tail};

// Whether a body is a map's, which ends where the body does.
fn is_body(body: &[u8]) -> bool
    ensures { result ≡ is_body body.now }
{
    match map_reader::read::read_map(body, 0, 8) {
        Ok(read) => read.stop == body.len(),
        Err(_) => false,
    }
}

// Whether what stands in a file from a place on is a tail. Its length is judged before its body is read.
pub fn is_tail(file: &[u8], stop: usize) -> bool
    requires { stop ≤ length file.now }
    ensures { result ≡ is_tail (drop stop file.now) }
{
    let kind = measure::tail::tail_kind(file, stop);
    if kind == 0 {
        return true;
    }
    if kind == 1 {
        let from = stop + 11;
        let end = file.len() - 2;
        return is_body(&file[from..end]);
    }
    false
}
