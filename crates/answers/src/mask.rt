// The words of a mask's call as numbers.
ghost use Rattle.std.specs.Prelude.{◌≡◌};
ghost use Rattle.answers.specs.Answers.{keep_of, masked};

use rollback::frame::Rollbacks;

// 0 keeps an id's first frame, every other number its last.
pub fn rollbacks_of(keep: u8) -> Rollbacks
    ensures { result ≡ keep_of keep }
{
    if keep == 0 {
        Rollbacks::ExceptFirst
    } else {
        Rollbacks::ExceptLast
    }
}

// 0 where the mask is written, else the refusal's number.
pub fn mask_number(m: Result<usize, u8>) -> u8
    ensures { result ≡ masked m }
{
    match m {
        Ok(_) => 0,
        Err(refused) => refused,
    }
}
