// Refusals 1 to 11.
ghost use Rattle.std.specs.Prelude.{◌≡◌, length};
ghost use Rattle.format.specs.Refusal.{lowest};
ghost use Rattle.format.specs.Refused.{number_in};
ghost use Rattle.game.specs.Held.{stores_in};
ghost use Rattle.format.specs.Mark.{yes};
ghost use Rattle.ser.specs.Write.{given_bytes, judged};

use format::refusal::Refusal;
use format::version::Version;
use game::Game;
use game::stores::Stores;

// How many bytes are given with a mark: none without it.
pub fn given_bytes(mark: u8, bytes: &[u8]) -> usize
    ensures { result ≡ given_bytes mark bytes.now }
{
    if mark == 0 {
        return 0;
    }
    bytes.len()
}

pub fn is_given(mark: u8) -> bool
    ensures { result ≡ yes mark }
{
    mark != 0
}

pub fn judge(g: Game, stores: &Stores<'_>) -> Result<(), Refusal>
    ensures { number_in result ≡ lowest (judged g (stores_in stores.now)) }
{
    let f = g.frames;
    frames::judge::judge(
        f,
        &stores.lent,
        given_bytes(g.codes_given, stores.codes),
        given_bytes(g.metadata_given, stores.metadata),
    )?;
    if start::judge::block_wrong(f.version, stores.template.len()) {
        return Err(Refusal::BadBlock);
    }
    let begin = g.start;
    if start::judge::is_bad_start(f.version, begin) {
        return Err(Refusal::BadStart);
    }
    if codes::blocks::codes_wrong(
        f.version,
        is_given(g.codes_given),
        stores.codes,
        g.actual_size,
    ) {
        return Err(Refusal::BadCodes);
    }
    let end = g.end;
    if ending::end::end_wrong(f.version, end, g.double_end) {
        return Err(Refusal::BadEnd);
    }
    Ok(())
}
