// The head of a recording: all that stands before its first frame, with a length of zero.
ghost use Rattle.std.specs.Prelude.{◌≡◌, ◌<◌};
ghost use Rattle.format.specs.Refusal.{lowest};
ghost use Rattle.format.specs.Refused.{number_in};
ghost use Rattle.live.specs.Head.{opening, head_judged, HeadOutcome};
ghost use Rattle.live.specs.Inner.{head_length};

use codes::blocks::{codes_wrong, put_codes};
use format::refusal::Refusal;
use format::version::Version;
use game::start::Start;
use ser::file::put_front;
use ser::judge::{given_bytes, is_given};
use ser::length::{codes_len, table_len};
use start::judge::{block_wrong, is_bad_start};
use start_block::block::put_block;

// Refusals 1, 2, 8, 9 and 10.
fn judge_head(
    v: Version,
    begin: Start,
    codes_given: u8,
    actual_size: u32,
    template: &[u8],
    codes: &[u8],
) -> Result<(), Refusal>
    ensures { number_in result ≡ lowest (head_judged (opening v begin codes_given actual_size template.now codes.now)) }
{
    if !v.accepted() {
        return Err(Refusal::VersionTooNew);
    }
    if 16777216 < given_bytes(codes_given, codes) {
        return Err(Refusal::TooMany);
    }
    if block_wrong(v, template.len()) {
        return Err(Refusal::BadBlock);
    }
    if is_bad_start(v, begin) {
        return Err(Refusal::BadStart);
    }
    if codes_wrong(v, is_given(codes_given), codes, actual_size) {
        return Err(Refusal::BadCodes);
    }
    Ok(())
}

// How many bytes the head has, by counts.
fn head_len(v: Version, codes_given: u8, actual_size: u32, block: usize) -> usize
    requires { block < 65536 }
    ensures { result ≡ head_length v codes_given actual_size block }
{
    let given = is_given(codes_given);
    let table = table_len(v, block, given, actual_size);
    let codes = codes_len(given, actual_size);
    15 + (table + (1 + block + codes))
}

// The head stands at the output's start, and the place behind it is answered; what follows it in the output stays.
pub fn write_head(
    out: &mut [u8],
    v: Version,
    begin: Start,
    codes_given: u8,
    actual_size: u32,
    template: &[u8],
    codes: &[u8],
) -> Result<usize, Refusal>
    ensures { HeadOutcome (opening v begin codes_given actual_size template.now codes.now)
        out.old result out.new }
{
    judge_head(v, begin, codes_given, actual_size, template, codes)?;
    let len = head_len(v, codes_given, actual_size, template.len());
    if out.len() < len {
        return Err(Refusal::ShortOutput);
    }
    let p = put_front(out, 0, v, codes_given, actual_size, template.len(), 0);
    let q = put_block(out, p, template, v, begin);
    let end = put_codes(out, q, is_given(codes_given), codes, actual_size);
    Ok(end)
}
