// The reader.
ghost use Rattle.std.specs.Prelude.{◌≡◌};
ghost use Rattle.head.specs.Step.{step_of};
ghost use Rattle.de.specs.Walk.{walk_of};
ghost use Rattle.answers.specs.Answers.{stepped, walked};

use answers::{SlpStep, SlpWalked, step_numbers, walk_numbers};

#[unsafe(no_mangle)]
pub extern "C" fn slp_step_at(file: &[u8], place: usize) -> SlpStep
    ensures { result ≡ stepped (step_of file.now place) }
{
    step_numbers(de::step_at(file, place))
}

#[unsafe(no_mangle)]
pub extern "C" fn slp_walk(file: &[u8]) -> SlpWalked
    ensures { result ≡ walked (walk_of file.now) }
{
    walk_numbers(de::walk(file))
}
