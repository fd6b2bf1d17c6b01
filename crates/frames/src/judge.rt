// The judge: the lowest of refusals 1 to 7 that applies to a frame input and the stores lent with it.
ghost use Rattle.std.specs.Prelude.{◌≡◌};
ghost use Rattle.format.specs.Refusal.{lowest};
ghost use Rattle.format.specs.Refused.{number_in};
ghost use Rattle.game.specs.Held.{lent_in};
ghost use Rattle.frames.specs.Judge.{too_new, too_many, refusals};

use super::offsets::offsets_mislead;
use super::ports::{ports_wrong, presence_wrong};
use super::stores::{cells_exceed, stores_misfit};
use format::frame_id::FrameId;
use format::refusal::Refusal;
use game::frames::Frames;
use game::stores::Lent;

// The maxima: of frames (as many as there are ids), of items, of the rows of each stage's family, and of the bytes of codes and metadata.
pub const MAX_FRAMES: usize = FrameId::COUNT;

pub const MAX_ITEMS: usize = 4_194_304;

pub const MAX_STAGE_ROWS: usize = 1_048_576;

pub const MAX_CODES: usize = 16_777_216;

pub const MAX_METADATA: usize = 65_535;

pub fn too_new(f: Frames) -> bool
    ensures { result ≡ too_new f }
{
    !f.version.accepted()
}

pub fn too_many(f: Frames, codes: usize, metadata: usize) -> bool
    ensures { result ≡ too_many f codes metadata }
{
    let fods = MAX_STAGE_ROWS < f.counts.fods;
    let whispys = MAX_STAGE_ROWS < f.counts.whispys;
    let stadiums = MAX_STAGE_ROWS < f.counts.stadiums;
    let rest = fods | (whispys | (stadiums | ((MAX_CODES < codes) | (MAX_METADATA < metadata))));
    (MAX_FRAMES < f.counts.frames) | ((MAX_ITEMS < f.counts.items) | rest)
}

// The codes and the metadata are lengths in bytes, 0 where there are none: only their maxima are judged here.
pub fn judge(f: Frames, lent: &Lent<'_>, codes: usize, metadata: usize) -> Result<(), Refusal>
    ensures { number_in result ≡ lowest (refusals f (lent_in lent.now) codes metadata) }
{
    if too_new(f) {
        return Err(Refusal::VersionTooNew);
    }
    if too_many(f, codes, metadata) {
        return Err(Refusal::TooMany);
    }
    if stores_misfit(f, &lent.cells) {
        return Err(Refusal::BadStore);
    }
    if cells_exceed(f, &lent.cells) {
        return Err(Refusal::WideCell);
    }
    if offsets_mislead(f, &lent.offsets) {
        return Err(Refusal::BadOffsets);
    }
    if presence_wrong(f, lent.presence) {
        return Err(Refusal::BadPresence);
    }
    if ports_wrong(f) {
        return Err(Refusal::BadPorts);
    }
    Ok(())
}
