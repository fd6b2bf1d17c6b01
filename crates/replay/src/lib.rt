// The reader as a value: the lent replay beside a place in it. Its calls are few and thin: the work is `de::step_at`.
#![tactic(auto)]

ghost use Rattle.std.specs.Prelude.{◌≡◌};
ghost use Rattle.head.specs.Table.{table_of, first_place};
ghost use Rattle.head.specs.Step.{step_of};
ghost use Rattle.head.specs.Numbers.{step_numbers};
ghost use Rattle.replay.specs.Value.{held_at};

use head::Step;

#[derive(Clone, Copy)]
pub struct Replay<'a> {
    pub bytes: &'a [u8],
    pub at: usize,
}

impl<'a> Replay<'a> {
    // A replay at a place: any number may be one.
    pub fn new(bytes: &'a [u8], at: usize) -> Replay<'a>
        ensures { result ≡ held_at bytes.entry at }
    {
        Replay { bytes, at }
    }

    pub fn place(self) -> usize
        ensures { result ≡ self.entry.at }
    {
        self.at
    }

    // What stands at its place.
    pub fn next_event(self) -> Step
        ensures { step_numbers result ≡ step_numbers (step_of self.entry.bytes.now self.entry.at) }
    {
        de::step_at(self.bytes, self.at)
    }

    // The same replay at another place: that of the next event, as a rule.
    pub fn moved(self, at: usize) -> Replay<'a>
        ensures { result ≡ held_at self.entry.bytes at }
    {
        Replay {
            bytes: self.bytes,
            at,
        }
    }
}

// Where the events of a file start.
pub fn first_place(file: &[u8]) -> usize
    ensures { result ≡ first_place (table_of file.now) }
{
    head::table::first_place(file)
}

// What stands at a place, for a caller with a plain slice.
pub fn event_from(file: &[u8], place: usize) -> Step
    ensures { step_numbers result ≡ step_numbers (step_of file.now place) }
{
    Replay::new(file, place).next_event()
}

// What stands at a place that a value was moved to, for such a caller.
pub fn event_moved(file: &[u8], from: usize, to: usize) -> Step
    ensures { step_numbers result ≡ step_numbers (step_of file.now to) }
{
    Replay::new(file, from).moved(to).next_event()
}
