// The words of faults.
ghost use Rattle.std.specs.Prelude.{◌≡◌};
ghost use Rattle.names.specs.Names.{fault_worded};

use crate::refusals::{Words, say};

// By their numbers, a line for each.
const WORDS: [u8; 756] = *b"no fault
an event out of order
an event of another size than its version's
an event with another frame's id
a frame's ports do not ascend
a player's Pre without its Post
a player twice in one frame
a port above 3
a follower flag above 1
a seat type above 3
an initiator who is no player
a wrong block of cheat codes
a third end
a second end unlike the first
the replay is not finished
the length field was never filled in, or says more bytes than there are
the first event is no GameStart of at least 4 bytes
the start block is too short for its version
an event that its version does not have
cheat codes are not as the table of payload sizes lists them
a frame with the id of the one before it
a player's Post without its Pre
an event that no replay has
";

pub fn fault_words(number: u8) -> Words
    ensures { result ≡ fault_worded number }
{
    say(&WORDS, 22, number)
}
