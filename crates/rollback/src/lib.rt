// Rollback masks: which frames repeat the id of another.
#![tactic(auto)]

ghost use Rattle.std.specs.Prelude.{◌≡◌, ◌≤◌, ◌<◌, length};
ghost use Rattle.rollback.specs.Mask.{place, needed, mask_of, scratch_of, RollbackOutcome};
ghost use Rattle.rollback.specs.Inner.{turn_of};

use format::frame_id::FrameId;
use format::refusal::Refusal;
use frame::Rollbacks;

pub mod frame;

// How far the id of a cell stands from the first; FrameId::COUNT for an id out of range.
pub fn place_of(cell: u32) -> usize
    ensures { (result ≡ place cell) × (result ≤ 1048576) }
{
    FrameId::of_cell(cell).place()
}

// How many bytes of scratch the ids need: the largest id and 124, 0 for no frames. More than FrameId::COUNT where an id is out of range.
// A number and no Option, as the clause with `needed` promises it.
pub fn scratch_len(ids: &[u32]) -> usize
    ensures { result ≡ needed ids.now }
{
    // 32 bits: four at a time are compared on every processor
    let mut most: u32 = 0;
    for cell in ids {
        let p = place_of(*cell) as u32;
        if most <= p {
            most = p + 1;
        }
    }
    most as usize
}

// The frame whose turn comes after k others: from the first on, or from the last back.
fn turn(keep: Rollbacks, frames: usize, k: usize) -> usize
    requires { k < frames }
    ensures { (result ≡ turn_of keep frames k) × (result < frames) }
{
    match keep {
        Rollbacks::ExceptFirst => k,
        Rollbacks::ExceptLast => frames - (k + 1),
    }
}

// The mask of ids that are all in range: a frame repeats where its id is marked when its turn comes.
fn sweep(ids: &[u32], keep: Rollbacks, mask: &mut [u8], marks: &mut [u8])
    requires { (length mask.old ≡ length ids.now) × (length marks.old ≡ needed ids.now) × (needed ids.now ≤ 1048576) }
    ensures { (mask.new ≡ mask_of keep ids.now)
        × (marks.new ≡ scratch_of ids.now (needed ids.now)) }
{
    marks.fill(0);
    let frames = ids.len();
    for k in 0..frames {
        let i = turn(keep, frames, k);
        let p = place_of(ids[i]);
        mask[i] = marks[p];
        marks[p] = 1;
    }
}

// Frame ids may appear several times due to rollbacks. The mask gets one byte a frame: 0 at an id's first (or last) occurrence, else 1.
// The scratch gets 1 at each place whose id occurs, else 0. Bytes beyond both stay, and a refused call changes none. The answer is the number of frames.
pub fn rollbacks(
    ids: &[u32],
    keep: Rollbacks,
    mask: &mut [u8],
    scratch: &mut [u8],
) -> Result<usize, Refusal>
    ensures { RollbackOutcome ids.now keep mask.old scratch.old
        result mask.new scratch.new }
{
    let frames = ids.len();
    // a mask takes as many frames as there are ids
    if FrameId::COUNT < frames {
        return Err(Refusal::TooMany);
    }
    if mask.len() < frames {
        return Err(Refusal::ShortOutput);
    }
    let need = scratch_len(ids);
    if FrameId::COUNT < need {
        return Err(Refusal::OutOfRange);
    }
    if scratch.len() < need {
        return Err(Refusal::ShortOutput);
    }
    sweep(ids, keep, &mut mask[..frames], &mut scratch[..need]);
    Ok(frames)
}
