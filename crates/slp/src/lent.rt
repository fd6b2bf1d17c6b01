// A game's stores, which C lends one by one, as the one value that the crates below take.
ghost use Rattle.std.specs.Prelude.{◌≡◌};
ghost use Rattle.game.specs.Held.{lent_in, stores_in};
ghost use Rattle.game.specs.Stores.{cells, offsets, lent, stores};

use game::stores::{Cells, Lent, Offsets, Stores};

pub(crate) fn lent_of<'a>(
    ids: &'a [u32],
    starts: &'a [u32],
    pres: &'a [u32],
    posts: &'a [u32],
    ends: &'a [u32],
    items: &'a [u32],
    fods: &'a [u32],
    whispys: &'a [u32],
    stadiums: &'a [u32],
    item_offsets: &'a [u32],
    fod_offsets: &'a [u32],
    whispy_offsets: &'a [u32],
    stadium_offsets: &'a [u32],
    presence: &'a [u8],
) -> Lent<'a>
    ensures { lent_in result ≡ lent
        (cells ids.now starts.now pres.now posts.now ends.now
        items.now fods.now whispys.now stadiums.now)
        (offsets item_offsets.now fod_offsets.now whispy_offsets.now stadium_offsets.now)
        presence.now }
{
    let cells = Cells {
        ids,
        starts,
        pres,
        posts,
        ends,
        items,
        fods,
        whispys,
        stadiums,
    };
    let offsets = Offsets {
        items: item_offsets,
        fods: fod_offsets,
        whispys: whispy_offsets,
        stadiums: stadium_offsets,
    };
    Lent {
        cells,
        offsets,
        presence,
    }
}

// With what is lent beside a game.
pub(crate) fn stores_of<'a>(
    ids: &'a [u32],
    starts: &'a [u32],
    pres: &'a [u32],
    posts: &'a [u32],
    ends: &'a [u32],
    items: &'a [u32],
    fods: &'a [u32],
    whispys: &'a [u32],
    stadiums: &'a [u32],
    item_offsets: &'a [u32],
    fod_offsets: &'a [u32],
    whispy_offsets: &'a [u32],
    stadium_offsets: &'a [u32],
    presence: &'a [u8],
    template: &'a [u8],
    codes: &'a [u8],
    metadata: &'a [u8],
) -> Stores<'a>
    ensures { stores_in result ≡ stores (lent
        (cells ids.now starts.now pres.now posts.now ends.now
        items.now fods.now whispys.now stadiums.now)
        (offsets item_offsets.now fod_offsets.now whispy_offsets.now stadium_offsets.now)
        presence.now) template.now codes.now metadata.now }
{
    let lent = lent_of(
        ids,
        starts,
        pres,
        posts,
        ends,
        items,
        fods,
        whispys,
        stadiums,
        item_offsets,
        fod_offsets,
        whispy_offsets,
        stadium_offsets,
        presence,
    );
    Stores {
        lent,
        template,
        codes,
        metadata,
    }
}
