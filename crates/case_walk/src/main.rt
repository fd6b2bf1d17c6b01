// Reads the smallest replay and 70,000 zeros behind it on standard input, and prints the line of it whole, cut, damaged, with a length that
// was never filled in, and followed by more bytes than an input may have.
#![tactic(auto)]

ghost use Rattle.std.specs.Prelude.{◌≤◌, ◌<◌, length};

use std::io;

fn show(rt: &impl Print, input: &[u8]) -> io::Result<()> {
    let mut text = [0u8; 64];
    let k = walk_line::report(input, &mut text);
    rt.write_all(&text[..k])
}

// The first n bytes.
fn show_cut(rt: &impl Print, file: &[u8], n: usize) -> io::Result<()> {
    if n <= file.len() {
        show(rt, &file[..n])?;
    }
    Ok(())
}

// What was read, as the program `walk` shows it.
fn show_read(rt: &impl Print, buffer: &[u8], n: usize) -> io::Result<()>
    requires { (65536 < length buffer.now) × (n ≤ length buffer.now) }
{
    let mut text = [0u8; 64];
    let k = walk_line::report_read(buffer, n, &mut text);
    rt.write_all(&text[..k])
}

// The first n bytes, with another byte at a place.
fn show_changed(rt: &impl Print, file: &mut [u8], n: usize, at: usize, byte: u8) -> io::Result<()> {
    if at < file.len() {
        let old = file[at];
        file[at] = byte;
        let shown = show_cut(rt, file, n);
        file[at] = old;
        shown?;
    }
    Ok(())
}

// Cases 1 to 5, a file without its length, and none at all.
fn cuts(rt: &impl Print, file: &[u8]) -> io::Result<()> {
    show_cut(rt, file, 351)?;
    show_cut(rt, file, 28)?;
    show_cut(rt, file, 29)?;
    show_cut(rt, file, 349)?;
    show_cut(rt, file, 350)?;
    show_cut(rt, file, 14)?;
    show_cut(rt, file, 0)
}

// Another signature; no table; a size byte that is not 1 modulo 3; a code twice.
fn heads(rt: &impl Print, file: &mut [u8]) -> io::Result<()> {
    show_changed(rt, file, 351, 0, 0x7c)?;
    show_changed(rt, file, 351, 15, 0x36)?;
    show_changed(rt, file, 351, 16, 14)?;
    show_changed(rt, file, 351, 20, 0x36)
}

// The first n bytes, with another declared length, below 256.
fn show_length(rt: &impl Print, file: &mut [u8], n: usize, length: u8) -> io::Result<()> {
    if 13 < file.len() {
        let high = file[13];
        file[13] = 0;
        let shown = show_changed(rt, file, n, 14, length);
        file[13] = high;
        shown?;
    }
    Ok(())
}

// A length of 1, one that is too small for the table by a byte, that of the table alone, and one that ends within the event.
fn lengths(rt: &impl Print, file: &mut [u8]) -> io::Result<()> {
    show_length(rt, file, 351, 1)?;
    show_length(rt, file, 351, 13)?;
    show_length(rt, file, 351, 14)?;
    show_length(rt, file, 351, 15)
}

// A length of 0, which was never filled in: cut in the table, after it, before and after the event's last byte, and with the tail.
fn unfilled(rt: &impl Print, file: &mut [u8]) -> io::Result<()> {
    show_length(rt, file, 28, 0)?;
    show_length(rt, file, 29, 0)?;
    show_length(rt, file, 349, 0)?;
    show_length(rt, file, 350, 0)?;
    show_length(rt, file, 351, 0)
}

// A code that the table lacks, whole and cut; an event that overruns whole data, and one that is cut.
fn events(rt: &impl Print, file: &mut [u8]) -> io::Result<()> {
    show_changed(rt, file, 351, 29, 0x40)?;
    show_changed(rt, file, 100, 29, 0x40)?;
    show_changed(rt, file, 351, 19, 0x41)?;
    show_changed(rt, file, 350, 19, 0x41)?;
    show_changed(rt, file, 349, 19, 0x41)
}

// The longest input, one byte more, and all of standard input as the program `walk` reads it.
fn longest(rt: &impl Print, file: &[u8], n: usize) -> io::Result<()>
    requires { (65536 < length file.now) × (n ≤ length file.now) }
{
    show_cut(rt, file, 65536)?;
    show_cut(rt, file, 65537)?;
    show_read(rt, file, n)
}

fn main(rt: HostRuntime) -> io::Result<()> {
    let mut file = [0u8; 65537];
    let n = walk_line::read_input(&mut rt.stdin(), &mut file)?;
    cuts(&rt, &file)?;
    heads(&rt, &mut file)?;
    lengths(&rt, &mut file)?;
    unfilled(&rt, &mut file)?;
    events(&rt, &mut file)?;
    longest(&rt, &file, n)
}
