// Reads a replay on standard input and walks it twice, through the reader as a value and by the walk: whole and cut after every byte, as it
// is, damaged, and with a length that was never filled in. Prints what the value found in all of it, and at how many cuts the two agree.
#![tactic(auto)]

use de::Walked;
use head::Step;
use std::io;

// What a walk found. The state is 1 at the data's end, 2 at a cut, and the number of a refusal, which has an offset and nothing else: a number, since
// it is printed as one.
#[derive(Clone, Copy, PartialEq)]
struct Found {
    state: u8,
    offset: usize,
    events: usize,
    place: usize,
}

// A value that is made at the first event and moved from each event to the next, until one is none. There are no more events than bytes.
fn last_place(file: &[u8]) -> Found {
    let mut from = replay::first_place(file);
    let mut place = from;
    for events in 0..file.len() {
        let step = replay::event_moved(file, from, place);
        let Step::Event { next, .. } = step else {
            return stopped(0, events, place);
        };
        from = place;
        place = next;
    }
    stopped(0, file.len(), place)
}

fn refused(number: u8, offset: usize) -> Found {
    Found {
        state: number,
        offset,
        events: 0,
        place: 0,
    }
}

fn stopped(state: u8, events: usize, place: usize) -> Found {
    Found {
        state,
        offset: 0,
        events,
        place,
    }
}

fn by_value(file: &[u8]) -> Found {
    let found = last_place(file);
    let step = replay::event_from(file, found.place);
    match step {
        Step::Event { .. } => stopped(0, found.events, found.place),
        Step::Ends => stopped(1, found.events, found.place),
        Step::Cut => stopped(2, found.events, found.place),
        Step::Refused { number, offset } => refused(number, offset),
    }
}

fn by_walk(file: &[u8]) -> Found {
    let w = de::walk(file);
    match w {
        Walked::Done {
            events,
            whole,
            place,
            ..
        } => {
            if whole {
                stopped(1, events, place)
            } else {
                stopped(2, events, place)
            }
        }
        Walked::Refused { number, offset } => refused(number, offset),
    }
}

// After how many of its bytes the two agree.
fn agreed(file: &[u8]) -> usize {
    let mut n: usize = 0;
    for cut in 1..=file.len() {
        let part = &file[..cut];
        if by_value(part) == by_walk(part) {
            n += 1;
        }
    }
    n
}

// State, offset, events and place, and at how many cuts both said the same.
fn show(rt: &impl Print, file: &[u8]) -> io::Result<()> {
    let v = by_value(file);
    let n = agreed(file);
    println!(rt;
        "{} {} {} {}, {n} of {}",
        v.state,
        v.offset,
        v.events,
        v.place,
        file.len()
    )
}

// The same with another byte at a place.
fn show_changed(rt: &impl Print, file: &mut [u8], at: usize, byte: u8) -> io::Result<()> {
    if at < file.len() {
        let old = file[at];
        file[at] = byte;
        let shown = show(rt, file);
        file[at] = old;
        shown?;
    }
    Ok(())
}

// The same with a length below 65,536 that was never filled in.
fn show_unfilled(rt: &impl Print, file: &mut [u8]) -> io::Result<()> {
    if 13 < file.len() {
        let high = file[13];
        file[13] = 0;
        let shown = show_changed(rt, file, 14, 0);
        file[13] = high;
        shown?;
    }
    Ok(())
}

fn main(rt: HostRuntime) -> io::Result<()> {
    let mut buffer = [0u8; 4096];
    let n = walk_line::read_input(&mut rt.stdin(), &mut buffer)?;
    let file = &mut buffer[..n];
    show(&rt, file)?;
    // No replay; a code twice; a code that the table lacks, at the second event; a declared length that is one too small.
    show_changed(&rt, file, 0, 0x7c)?;
    show_changed(&rt, file, 20, 0x36)?;
    show_changed(&rt, file, 350, 0x40)?;
    show_changed(&rt, file, 14, 0xf2)?;
    show_unfilled(&rt, file)
}
