// The words of refusals.
ghost use Rattle.std.specs.Prelude.{◌≡◌, length, ◌≤◌};
ghost use Rattle.wire.specs.Wire.{Room, Wrote};
ghost use Rattle.names.specs.Bytes.{filled};
ghost use Rattle.names.specs.Inner.{said};
ghost use Rattle.names.specs.Names.{worded};

use crate::lines::put_line;

// By their numbers, a line for each.
const WORDS: [u8; 1357] = *b"accepted
the version is above 3.18.0
a count exceeds its maximum
a cell store's length is not columns times rows
a cell exceeds its column's width
offsets do not lead through the rows, or the version has no such rows
presence bits do not match the frames
there are over four ports or eight slots, a port above 3, or a port twice
the start block is too short for the version, or over 65,535 bytes
a start field is missing, a player type or text is out of its limits, or a text has a zero inside
cheat codes before 3.3, or not padded to blocks of 512 bytes
a double end without an end, or an initiator who is no player
the output is too short
a frame id, frame, row or column is out of range
not a replay: under 15 bytes, or a wrong signature
the table of payload sizes is absent, not whole, or damaged
an event whose code is not in the table of payload sizes
an event that runs past the end of the event data
the input is over 65,536 bytes
not a replay that can be read into columns
a map more than 8 deep in the metadata
a key or text of over 255 bytes in the metadata
a key twice in one map of the metadata
metadata that is no map of texts, numbers and maps
a replay without an index: below 2.2, its first event no GameStart, or a FrameStart without an id
not an index: its mark, version or length is wrong
the index of another replay
no frame has this id
";

// What is said of every other number.
const UNKNOWN: [u8; 36] = *b"for a reason that is not known here
";

// Why a call was refused, in words with zeros behind them.
#[repr(C)]
#[derive(Clone, Copy)]
pub struct Words {
    pub text: [u8; 128],
}

// What a list says of a number, at the start of out.
fn put_words(out: &mut [u8], list: &[u8], last: u8, number: u8) -> usize
    requires { Room out.old 0 (said list.now last number) }
    ensures { Wrote out.old out.new 0 result (said list.now last number) }
{
    if last < number {
        return put_line(out, &UNKNOWN, 0);
    }
    put_line(out, list, wire::wide(number))
}

// The line of a number in a list whose last line is that of `last`, or what is said of every other number.
pub fn say(list: &[u8], last: u8, number: u8) -> Words
    requires { length (said list.now last number) ≤ 128 }
    ensures { result ≡ record { text = filled 128 (said list.now last number) } }
{
    let mut text = [0u8; 128];
    put_words(&mut text, list, last, number);
    Words { text }
}

pub fn refusal_words(number: u8) -> Words
    ensures { result ≡ worded number }
{
    say(&WORDS, 27, number)
}
