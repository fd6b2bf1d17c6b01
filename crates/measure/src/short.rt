// Whether lent stores are long enough.
ghost use Rattle.std.specs.Prelude.{◌≡◌};
ghost use Rattle.measure.specs.Inner.{short_by};

use crate::lengths::Lengths;

// Whether one of the lengths is under what is needed.
pub fn short(given: Lengths, needed: Lengths) -> bool
    ensures { result ≡ short_by given needed }
{
    let fods = given.fod_offsets < needed.fod_offsets;
    let whispys = given.whispy_offsets < needed.whispy_offsets;
    let stadiums = given.stadium_offsets < needed.stadium_offsets;
    let rest = (given.presence < needed.presence) | (given.codes < needed.codes);
    let offsets = (given.item_offsets < needed.item_offsets)
        | (fods | (whispys | (stadiums | rest)));
    let stage = (given.whispys < needed.whispys) | ((given.stadiums < needed.stadiums) | offsets);
    let rows = (given.items < needed.items) | ((given.fods < needed.fods) | stage);
    let players = (given.posts < needed.posts) | ((given.ends < needed.ends) | rows);
    (given.ids < needed.ids)
        | ((given.starts < needed.starts) | ((given.pres < needed.pres) | players))
}
