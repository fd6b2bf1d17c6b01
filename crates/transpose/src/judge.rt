// Refusal 13: no such place.
ghost use Rattle.std.specs.Prelude.{◌≡◌};
ghost use Rattle.format.specs.Refused.{number_in};
ghost use Rattle.transpose.specs.Judge.{outside};
ghost use Rattle.transpose.specs.Inner.{place_refusal};

use format::refusal::Refusal;
use game::frames::Frames;
use layout::columns::Family;
use players::slots::blocks;

// Whether a family has no such block, or no such row in it.
fn is_outside(f: Frames, family: Family, block: usize, row: usize) -> bool
    ensures { result ≡ outside f family block row }
{
    (blocks(f, family) <= block) | (f.rows(family) <= row)
}

// What the judge of the stores answered, or 13: beside the judge and not around it, where it would take room on the stack.
pub fn place_judged(
    judged: Result<(), Refusal>,
    f: Frames,
    family: Family,
    block: usize,
    row: usize,
) -> Result<(), Refusal>
    ensures { number_in result ≡ place_refusal (number_in judged) f family block row }
{
    judged?;
    if is_outside(f, family, block, row) {
        return Err(Refusal::OutOfRange);
    }
    Ok(())
}
