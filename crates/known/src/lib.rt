// What 3.18 knows of a newer recorder's events: the definition is in specs/, here is the test of a code.
#![tactic(auto)]

ghost use Rattle.std.specs.Prelude.{◌≡◌};
ghost use Rattle.known.specs.Known.{is_known};

use format::event::{
    DREAMLAND_WHISPY, FOD_PLATFORM, FRAME_END, FRAME_POST, FRAME_PRE, FRAME_START, GAME_END,
    GAME_START, GECKO_CODES, ITEM, MESSAGE_SPLITTER, PAYLOADS, STADIUM_TRANSFORMATION,
};

// Whether a code has a name up to 3.18.
pub fn is_known(code: u8) -> bool
    ensures { result ≡ is_known code }
{
    let stage = (code == FOD_PLATFORM)
        | ((code == DREAMLAND_WHISPY) | (code == STADIUM_TRANSFORMATION));
    let codes = (code == GECKO_CODES) | ((code == MESSAGE_SPLITTER) | stage);
    let rows = (code == FRAME_START) | ((code == ITEM) | ((code == FRAME_END) | codes));
    let players = (code == FRAME_PRE) | ((code == FRAME_POST) | ((code == GAME_END) | rows));
    (code == PAYLOADS) | ((code == GAME_START) | players)
}
