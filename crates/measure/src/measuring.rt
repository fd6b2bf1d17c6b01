// What a file needs to be read.
ghost use Rattle.newer_judge.specs.Inner.{Shows};
ghost use Rattle.measure.specs.Read.{MeasureOutcome};

use super::Measured;
use super::answer::{measured, not_measured};
use super::tail::gecko_span;
use read_judge::Verdict;
use read_judge::parts::Parts;

// Of a file that holds these parts.
fn measure_held(file: &[u8], first: usize, stop: usize, p: Parts) -> Measured
    requires { Shows file.now first stop p }
    ensures { MeasureOutcome file.now result }
{
    let gecko = gecko_span(file, first);
    measured(file, gecko, first, stop, p)
}

// Of any file: what `read` will need, or why it refuses.
pub fn measure(file: &[u8]) -> Measured
    ensures { MeasureOutcome file.now result }
{
    let v = newer_judge::judge(file);
    match v {
        Verdict::Refused { number, offset } => not_measured(number, offset),
        Verdict::Held { first, stop, parts } => measure_held(file, first, stop, parts),
    }
}
