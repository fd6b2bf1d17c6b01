// The public call: a map's body from lent rows, judged first.
ghost use Rattle.std.specs.Prelude.{◌≡◌};
ghost use Rattle.format.specs.Refused.{number_in};
ghost use Rattle.map.specs.Write.{refusal_of, WriteMapOutcome, map_written};

use crate::judge::judge_map;
use crate::keys::doubled;
use crate::put::put_map;
use format::refusal::Refusal;

// Whether rows can be written as the map of `count` entries.
fn judge(rows: &[u32], texts: &[u8], count: usize, room: usize) -> Result<(), Refusal>
    ensures { number_in result ≡ refusal_of rows.now texts.now count room }
{
    let j = judge_map(rows, texts, 0, count, 8);
    if j.refusal == Some(Refusal::TooDeep) {
        return Err(Refusal::TooDeep);
    }
    if j.refusal == Some(Refusal::LongText) {
        return Err(Refusal::LongText);
    }
    if doubled(rows, texts, 0, count, 8) {
        return Err(Refusal::RepeatedKey);
    }
    if j.refusal.is_some() {
        return Err(Refusal::BadBody);
    }
    if rows.len() % 5 != 0 {
        return Err(Refusal::BadBody);
    }
    if j.next != rows.len() / 5 {
        return Err(Refusal::BadBody);
    }
    if 65535 < j.bytes {
        return Err(Refusal::TooMany);
    }
    if room < j.bytes {
        return Err(Refusal::ShortOutput);
    }
    Ok(())
}

// The body of the map of `count` entries whose rows are lent, from the output's start on, and its length. Maps nest at most 8 deep.
pub fn write_map(out: &mut [u8], rows: &[u32], texts: &[u8], count: usize) -> Result<usize, Refusal>
    ensures { WriteMapOutcome out.old rows.now texts.now count out.new (map_written result) }
{
    judge(rows, texts, count, out.len())?;
    let p = put_map(out, 0, rows, texts, 0, count, 8);
    Ok(p.at)
}
