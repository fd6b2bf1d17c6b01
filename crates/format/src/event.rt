// Event codes and the signature.
ghost use Rattle.std.specs.Prelude.{◌≡◌};
ghost use Rattle.wire.specs.Wire.{Room, Wrote};
ghost use Rattle.format.specs.Event.{code_of, signature};

#[derive(Clone, Copy)]
pub enum Event {
    Payloads = 0x35,
    GameStart = 0x36,
    FramePre = 0x37,
    FramePost = 0x38,
    GameEnd = 0x39,
    FrameStart = 0x3A,
    Item = 0x3B,
    FrameEnd = 0x3C,
    GeckoCodes = 0x3D,
    MessageSplitter = 0x10,
    FodPlatform = 0x3F,
    DreamlandWhispy = 0x40,
    StadiumTransformation = 0x41,
}

// The codes by name, for code that tells events apart by their first byte.
pub const PAYLOADS: u8 = Event::Payloads as u8;

pub const GAME_START: u8 = Event::GameStart as u8;

pub const FRAME_PRE: u8 = Event::FramePre as u8;

pub const FRAME_POST: u8 = Event::FramePost as u8;

pub const GAME_END: u8 = Event::GameEnd as u8;

pub const FRAME_START: u8 = Event::FrameStart as u8;

pub const ITEM: u8 = Event::Item as u8;

pub const FRAME_END: u8 = Event::FrameEnd as u8;

pub const GECKO_CODES: u8 = Event::GeckoCodes as u8;

pub const MESSAGE_SPLITTER: u8 = Event::MessageSplitter as u8;

pub const FOD_PLATFORM: u8 = Event::FodPlatform as u8;

pub const DREAMLAND_WHISPY: u8 = Event::DreamlandWhispy as u8;

pub const STADIUM_TRANSFORMATION: u8 = Event::StadiumTransformation as u8;

impl Event {
    pub fn code(self) -> u8
        ensures { result ≡ code_of self }
    {
        self as u8
    }
}

// Every replay starts with a UBJSON opening brace, the key "raw" and its type: {U\x03raw[$U#l
pub const FILE_SIGNATURE: [u8; 11] = [
    0x7b, 0x55, 0x03, 0x72, 0x61, 0x77, 0x5b, 0x24, 0x55, 0x23, 0x6c,
];

pub fn put_signature(out: &mut [u8], at: usize) -> usize
    requires { Room out.old at signature }
    ensures { Wrote out.old out.new at result signature }
{
    wire::put_bytes(out, at, &FILE_SIGNATURE)
}
