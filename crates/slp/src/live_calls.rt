// A live recording: its head, its end and its length field.
ghost use Rattle.std.specs.Prelude.{◌≡◌};
ghost use Rattle.live.specs.Head.{opening};
ghost use Rattle.live.specs.End.{closing};
ghost use Rattle.live.specs.Length.{field_refusal, field_bytes};
ghost use Rattle.slp.specs.Live.{HeadCall, EndCall};

use answers::{SlpAppended, SlpClosed, appended_numbers, by_number, closed_numbers};
use format::version::Version;
use game::end::End;
use game::start::Start;
use live::begin::write_head;
use live::finish::write_end;
use live::length::{LengthField, length_field};

#[unsafe(no_mangle)]
pub extern "C" fn slp_write_head(
    out: &mut [u8],
    version: Version,
    begin: Start,
    codes_given: u8,
    actual_size: u32,
    block: &[u8],
    codes: &[u8],
) -> SlpAppended
    ensures { HeadCall (opening version begin codes_given actual_size block.now codes.now)
        out.old result out.new }
{
    appended_numbers(by_number(write_head(
        out,
        version,
        begin,
        codes_given,
        actual_size,
        block,
        codes,
    )))
}

#[unsafe(no_mangle)]
pub extern "C" fn slp_write_end(
    out: &mut [u8],
    place: usize,
    version: Version,
    end: End,
    double_end: u8,
    metadata_given: u8,
    metadata: &[u8],
) -> SlpClosed
    ensures { EndCall (closing version end double_end metadata_given metadata.now)
        place out.old result out.new }
{
    closed_numbers(by_number(write_end(
        out,
        place,
        version,
        end,
        double_end,
        metadata_given,
        metadata,
    )))
}

#[unsafe(no_mangle)]
pub extern "C" fn slp_length_field(n: usize) -> LengthField
    ensures { (result.refused ≡ field_refusal n) × (result.bytes ≡ field_bytes n) }
{
    length_field(n)
}
