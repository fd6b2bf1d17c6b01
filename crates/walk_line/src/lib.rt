// The one line that the program `walk` prints of its input.
#![tactic(auto)]

ghost use Rattle.std.specs.Prelude.{◌≡◌, ℕ, ◌+◌, ◌≤◌, ◌<◌, List, length, take, IfOk, OnOk, IfSome};
ghost use Rattle.std.specs.Io.KnownBytes.{Appends, Consumes, IsAtEnd};
ghost use Rattle.io.specs.Counts.{IsPrefixLen};
ghost use Rattle.wire.specs.Wire.{Wrote};
ghost use Rattle.walk_line.specs.Line.{input_of, Decimal, Pair, state, Line, Put};

use de::Walked;
use format::refusal::LONG_INPUT;
use std::io::{Read, Write};

// The most bytes that an input may have.
const LONGEST: usize = 65536;

// The walk of a program's input, which is refused where it is too long.
fn walk_input(input: &[u8]) -> Walked
    ensures { result ≡ input_of input.now }
{
    if LONGEST < input.len() {
        return Walked::Refused {
            number: LONG_INPUT,
            offset: 0,
        };
    }
    de::walk(input)
}

fn put_decimal(out: &mut [u8], at: usize, n: u64) -> usize
    requires { at + 20 ≤ length out.old }
    ensures { Put (Decimal n) out.old out.new at result × (result ≤ at + 20) }
{
    let mut text = [0u8; 20];
    let k = io::decimal(n, &mut text);
    wire::put_bytes(out, at, &text[..k])
}

// Two numbers with a space between them.
fn put_pair(out: &mut [u8], at: usize, a: u64, b: u64) -> usize
    requires { at + 41 ≤ length out.old }
    ensures { Put (Pair a b) out.old out.new at result × (result ≤ at + 41) }
{
    let p = put_decimal(out, at, a);
    let q = wire::put_u8(out, p, b' ');
    put_decimal(out, q, b)
}

fn put_state(out: &mut [u8], at: usize, whole: bool) -> usize
    requires { at + 7 ≤ length out.old }
    ensures { Wrote out.old out.new at result (state whole) × (result ≤ at + 7) }
{
    if whole {
        wire::put_bytes(out, at, b" whole\n")
    } else {
        wire::put_bytes(out, at, b" cut\n")
    }
}

fn put_refusal(out: &mut [u8], number: u8, offset: usize) -> usize
    requires { 64 ≤ length out.old }
    ensures { Put (Line (Walked.Refused number offset)) out.old out.new 0 result × (result ≤ 64) }
{
    let p = wire::put_bytes(out, 0, b"refused ");
    let q = put_pair(out, p, number as u64, offset as u64);
    wire::put_u8(out, q, b'\n')
}

fn put_done(out: &mut [u8], events: usize, stray: usize, whole: bool, place: usize) -> usize
    requires { 64 ≤ length out.old }
    ensures { Put (Line (Walked.Done events stray whole place)) out.old out.new 0 result × (result ≤ 64) }
{
    let q = put_pair(out, 0, events as u64, stray as u64);
    put_state(out, q, whole)
}

fn put_line(out: &mut [u8], w: Walked) -> usize
    requires { 64 ≤ length out.old }
    ensures { Put (Line w) out.old out.new 0 result × (result ≤ 64) }
{
    match w {
        Walked::Done {
            events,
            stray,
            whole,
            place,
        } => put_done(out, events, stray, whole, place),
        Walked::Refused { number, offset } => put_refusal(out, number, offset),
    }
}

// Puts the line of an input at the start of out, and answers how many bytes it has.
pub fn report(input: &[u8], out: &mut [u8]) -> usize
    requires { 64 ≤ length out.old }
    ensures prefix_len { IsPrefixLen result out.new }
    ensures put { Put (Line (input_of input.now)) out.old out.new 0 result }
{
    let w = walk_input(input);
    put_line(out, w)
}

// Puts the line of an input that was read into a buffer, its first n bytes. The buffer has room for a byte more than an input may have, so that an input
// which is too long is seen to be, and one that is not is there to its end.
pub fn report_read(buffer: &[u8], n: usize, out: &mut [u8]) -> usize
    requires in_bounds { 65536 < length buffer.now }
    requires n_in_bounds { (n ≤ length buffer.now) × (64 ≤ length out.old) }
    ensures prefix_len { IsPrefixLen result out.new }
    ensures put { Put (Line (input_of (take n buffer.now))) out.old out.new 0 result }
{
    report(&buffer[..n], out)
}

// Reads until the input ends or the buffer is full, and answers how many bytes it put at the start of the buffer. A read that fails ends it.
pub fn read_input<R: Read>(input: &mut R, buffer: &mut [u8]) -> std::io::Result<usize>
    ensures prefix_len { IfOk result (λ n. IsPrefixLen n buffer.new) }
    ensures taken { IfOk result (λ n. Consumes (R.remaining input.old) (R.remaining input.new) (take n buffer.new)) }
    ensures ended { IfOk result (λ n. n < length buffer.new → IsAtEnd (R.remaining input.new)) }
{
    let mut done = 0;
    while done < buffer.len() {
        let n = input.read(&mut buffer[done..])?;
        if n == 0 {
            break;
        }
        done += n;
    }
    Ok(done)
}

// The program `walk`: reads an input, and writes its line. The buffer is as `report_read` asks for it.
pub fn answer<R: Read, W: Write>(
    input: &mut R,
    buffer: &mut [u8],
    output: &mut W,
) -> std::io::Result<()>
    requires { 65536 < length buffer.old }
    ensures { OnOk result (IfSome (R.remaining input.old) (λ f. (x : List ℕ) × Line (input_of f) x × Appends (W.contents output.old) (W.contents output.new) x)) }
{
    let n = read_input(input, buffer)?;
    let mut text = [0u8; 64];
    let k = report_read(buffer, n, &mut text);
    output.write_all(&text[..k])
}
