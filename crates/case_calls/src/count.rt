// How many events of a file have a code, found by the reader.
ghost use Rattle.std.specs.Prelude.{◌≡◌, cond, ◌+◌, ◌<◌, ◌^◌, eqb};
ghost use Rattle.de.specs.Cut.{events_read};
ghost use Rattle.case_calls.specs.Rows.{count_code};

use head::Step;

fn one_more(n: usize, found: u8, code: u8) -> usize
    requires { n + 1 < 2 ^ 64 }
    ensures { result ≡ n + cond (eqb found code) 1 0 }
{
    if found == code {
        return n + 1;
    }
    n
}

pub fn count_code(file: &[u8], code: u8) -> usize
    ensures { result ≡ count_code code (events_read file.now) }
{
    let mut place = head::table::first_place(file);
    let mut n: usize = 0;
    loop {
        let step = de::step_at(file, place);
        let Step::Event {
            code: found,
            at: _,
            payload: _,
            len: _,
            next,
        } = step
        else {
            return n;
        };
        n = one_more(n, found, code);
        place = next;
    }
}
