// Why calls refuse. Each refusal has a number, by which the C header names it.
ghost use Rattle.std.specs.Prelude.{◌≡◌};
ghost use Rattle.format.specs.Refused.{number_of, number_in};

#[derive(Clone, Copy, Debug, PartialEq, Eq)]
pub enum Refusal {
    // The writer, the masks and the rows.
    VersionTooNew,
    TooMany,
    BadStore,
    WideCell,
    BadOffsets,
    BadPresence,
    BadPorts,
    BadBlock,
    BadStart,
    BadCodes,
    BadEnd,
    ShortOutput,
    OutOfRange,
    // The reader, and its program.
    NotAReplay,
    BadTable,
    UnknownEvent,
    BadPlace,
    LongInput,
    // A replay read back into columns, and the check of another tool's file.
    BadEvents,
    // The metadata's map.
    TooDeep,
    LongText,
    RepeatedKey,
    BadBody,
    // The index of a replay.
    NoIndex,
    BadIndex,
    OtherReplay,
    NoSuchId,
}

impl Refusal {
    pub fn number(self) -> u8
        ensures { result ≡ number_of self }
    {
        match self {
            Refusal::VersionTooNew => VERSION_TOO_NEW,
            Refusal::TooMany => TOO_MANY,
            Refusal::BadStore => BAD_STORE,
            Refusal::WideCell => WIDE_CELL,
            Refusal::BadOffsets => BAD_OFFSETS,
            Refusal::BadPresence => BAD_PRESENCE,
            Refusal::BadPorts => BAD_PORTS,
            Refusal::BadBlock => BAD_BLOCK,
            Refusal::BadStart => BAD_START,
            Refusal::BadCodes => BAD_CODES,
            Refusal::BadEnd => BAD_END,
            Refusal::ShortOutput => SHORT_OUTPUT,
            Refusal::OutOfRange => OUT_OF_RANGE,
            Refusal::NotAReplay => NOT_A_REPLAY,
            Refusal::BadTable => BAD_TABLE,
            Refusal::UnknownEvent => UNKNOWN_EVENT,
            Refusal::BadPlace => BAD_PLACE,
            Refusal::LongInput => LONG_INPUT,
            Refusal::BadEvents => BAD_EVENTS,
            Refusal::TooDeep => TOO_DEEP,
            Refusal::LongText => LONG_TEXT,
            Refusal::RepeatedKey => REPEATED_KEY,
            Refusal::BadBody => BAD_BODY,
            Refusal::NoIndex => NO_INDEX,
            Refusal::BadIndex => BAD_INDEX,
            Refusal::OtherReplay => OTHER_REPLAY,
            Refusal::NoSuchId => NO_SUCH_ID,
        }
    }
}

// The number of an answer's refusal, and 0 where it is none.
pub fn number_in(answer: Result<(), Refusal>) -> u8
    ensures { result ≡ number_in answer }
{
    match answer {
        Ok(()) => 0,
        Err(why) => why.number(),
    }
}

// The numbers, by the names of the C header where it has them.

// The writer, the masks and the rows.
pub const VERSION_TOO_NEW: u8 = 1;

pub const TOO_MANY: u8 = 2;

pub const BAD_STORE: u8 = 3;

pub const WIDE_CELL: u8 = 4;

pub const BAD_OFFSETS: u8 = 5;

pub const BAD_PRESENCE: u8 = 6;

pub const BAD_PORTS: u8 = 7;

pub const BAD_BLOCK: u8 = 8;

pub const BAD_START: u8 = 9;

pub const BAD_CODES: u8 = 10;

pub const BAD_END: u8 = 11;

pub const SHORT_OUTPUT: u8 = 12;

pub const OUT_OF_RANGE: u8 = 13;

// The reader, and its program.
pub const NOT_A_REPLAY: u8 = 14;

pub const BAD_TABLE: u8 = 15;

pub const UNKNOWN_EVENT: u8 = 16;

pub const BAD_PLACE: u8 = 17;

pub const LONG_INPUT: u8 = 18;

// A replay read back into columns, and the check of another tool's file.
pub const BAD_EVENTS: u8 = 19;

// The metadata's map.
pub const TOO_DEEP: u8 = 20;

pub const LONG_TEXT: u8 = 21;

pub const REPEATED_KEY: u8 = 22;

pub const BAD_BODY: u8 = 23;

// The index of a replay.
pub const NO_INDEX: u8 = 24;

pub const BAD_INDEX: u8 = 25;

pub const OTHER_REPLAY: u8 = 26;

pub const NO_SUCH_ID: u8 = 27;
