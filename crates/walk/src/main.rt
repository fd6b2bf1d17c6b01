// Reads a replay on standard input, and prints one line: events, stray bytes, state; or refused, number, offset.
// Where reading fails, or the output takes no more, the program ends with that error: it says so on standard error, and its status is 1.
#![tactic(auto)]

use std::io;

fn main(rt: HostRuntime) -> io::Result<()> {
    // A byte more than an input may have: `answer` asks for it.
    let mut input = [0u8; 65537];
    walk_line::answer(&mut rt.stdin(), &mut input, &mut rt.stdout())
}
