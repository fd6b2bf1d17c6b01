// The answers as structs of numbers: an enum does not cross to C. A field that an answer lacks is 0.
#![tactic(auto)]

ghost use Rattle.std.specs.Prelude.{◌≡◌, cond};
ghost use Rattle.answers.specs.Answers.{stepped, walked, numbered, written, appended_as, closed_as};

use de::Walked;
use format::refusal::Refusal;
use head::Step;
use live::closed::Ends;

pub mod mask;

// What stands at a place: kind 0 is an event, 1 the end of the data, 2 a cut, 3 a refusal.
#[repr(C)]
#[derive(Clone, Copy)]
pub struct SlpStep {
    pub kind: u8,
    pub refused: u8,
    pub code: u8,
    pub offset: usize,
    pub at: usize,
    pub payload: usize,
    pub len: usize,
    pub next: usize,
}

#[repr(C)]
#[derive(Clone, Copy)]
pub struct SlpWalked {
    pub refused: u8,
    pub whole: u8,
    pub offset: usize,
    pub events: usize,
    pub stray: usize,
    pub place: usize,
}

#[repr(C)]
#[derive(Clone, Copy)]
pub struct SlpWritten {
    pub refused: u8,
    pub len: usize,
}

#[repr(C)]
#[derive(Clone, Copy)]
pub struct SlpAppended {
    pub refused: u8,
    pub end: usize,
}

#[repr(C)]
#[derive(Clone, Copy)]
pub struct SlpClosed {
    pub refused: u8,
    pub events: usize,
    pub end: usize,
}

fn bare(kind: u8, refused: u8, offset: usize) -> SlpStep
    ensures { result ≡ record { kind = kind; refused = refused; code = 0; offset = offset; at = 0; payload = 0; len = 0; next = 0 } }
{
    SlpStep {
        kind,
        refused,
        code: 0,
        offset,
        at: 0,
        payload: 0,
        len: 0,
        next: 0,
    }
}

pub fn step_numbers(s: Step) -> SlpStep
    ensures { result ≡ stepped s }
{
    match s {
        Step::Event {
            code,
            at,
            payload,
            len,
            next,
        } => SlpStep {
            kind: 0,
            refused: 0,
            code,
            offset: 0,
            at,
            payload,
            len,
            next,
        },
        Step::Ends => bare(1, 0, 0),
        Step::Cut => bare(2, 0, 0),
        Step::Refused { number, offset } => bare(3, number, offset),
    }
}

fn mark(b: bool) -> u8
    ensures { result ≡ cond b 1 0 }
{
    if b { 1 } else { 0 }
}

pub fn walk_numbers(w: Walked) -> SlpWalked
    ensures { result ≡ walked w }
{
    match w {
        Walked::Done {
            events,
            stray,
            whole,
            place,
        } => SlpWalked {
            refused: 0,
            whole: mark(whole),
            offset: 0,
            events,
            stray,
            place,
        },
        Walked::Refused { number, offset } => SlpWalked {
            refused: number,
            whole: 0,
            offset,
            events: 0,
            stray: 0,
            place: 0,
        },
    }
}

// An answer with its refusal's number, as the functions below take it: they take any number.
pub fn by_number<T>(answer: Result<T, Refusal>) -> Result<T, u8>
    ensures { result ≡ numbered answer }
{
    match answer {
        Ok(x) => Ok(x),
        Err(why) => Err(why.number()),
    }
}

pub fn written_numbers(w: Result<usize, u8>) -> SlpWritten
    ensures { result ≡ written w }
{
    match w {
        Ok(len) => SlpWritten { refused: 0, len },
        Err(refused) => SlpWritten { refused, len: 0 },
    }
}

pub fn appended_numbers(w: Result<usize, u8>) -> SlpAppended
    ensures { result ≡ appended_as w }
{
    match w {
        Ok(end) => SlpAppended { refused: 0, end },
        Err(refused) => SlpAppended { refused, end: 0 },
    }
}

pub fn closed_numbers(c: Result<Ends, u8>) -> SlpClosed
    ensures { result ≡ closed_as c }
{
    match c {
        Ok(Ends { events, end }) => SlpClosed {
            refused: 0,
            events,
            end,
        },
        Err(refused) => SlpClosed {
            refused,
            events: 0,
            end: 0,
        },
    }
}
