// The low bytes of a record's cells: what is over a column's width is dropped. Each family is written out, so that no table is read for a row; that the
// widths are those of the one table is in each promise.
ghost use Rattle.std.specs.Prelude.{◌≡◌};
ghost use Rattle.layout.specs.declared.columns.Family.TheVariants as family;
ghost use Rattle.rows_given.specs.Inner.{narrowed};

use layout::columns::Family;

fn narrow_pre(raw: [u32; 32]) -> [u32; 32]
    ensures { result ≡ narrowed family.Pre raw }
{
    [
        raw[0],
        raw[1] % 0x1_0000,
        raw[2],
        raw[3],
        raw[4],
        raw[5],
        raw[6],
        raw[7],
        raw[8],
        raw[9],
        raw[10],
        raw[11] % 0x1_0000,
        raw[12],
        raw[13],
        raw[14] % 0x100,
        raw[15],
        raw[16] % 0x100,
        raw[17] % 0x100,
        raw[18] % 0x100,
        0,
        0,
        0,
        0,
        0,
        0,
        0,
        0,
        0,
        0,
        0,
        0,
        0,
    ]
}

fn narrow_post(raw: [u32; 32]) -> [u32; 32]
    ensures { result ≡ narrowed family.Post raw }
{
    [
        raw[0] % 0x100,
        raw[1] % 0x1_0000,
        raw[2],
        raw[3],
        raw[4],
        raw[5],
        raw[6],
        raw[7] % 0x100,
        raw[8] % 0x100,
        raw[9] % 0x100,
        raw[10] % 0x100,
        raw[11],
        raw[12] % 0x100,
        raw[13] % 0x100,
        raw[14] % 0x100,
        raw[15] % 0x100,
        raw[16] % 0x100,
        raw[17],
        raw[18] % 0x100,
        raw[19] % 0x1_0000,
        raw[20] % 0x100,
        raw[21] % 0x100,
        raw[22] % 0x100,
        raw[23],
        raw[24],
        raw[25],
        raw[26],
        raw[27],
        raw[28],
        raw[29],
        raw[30] % 0x1_0000,
        raw[31] % 0x1_0000,
    ]
}

fn narrow_frame_start(raw: [u32; 32]) -> [u32; 32]
    ensures { result ≡ narrowed family.FrameStart raw }
{
    [
        raw[0], raw[1], 0, 0, 0, 0, 0, 0, 0, 0, 0, 0, 0, 0, 0, 0, 0, 0, 0, 0, 0, 0, 0, 0, 0, 0, 0,
        0, 0, 0, 0, 0,
    ]
}

fn narrow_item(raw: [u32; 32]) -> [u32; 32]
    ensures { result ≡ narrowed family.Item raw }
{
    [
        raw[0] % 0x1_0000,
        raw[1] % 0x100,
        raw[2],
        raw[3],
        raw[4],
        raw[5],
        raw[6],
        raw[7] % 0x1_0000,
        raw[8],
        raw[9],
        raw[10] % 0x100,
        raw[11] % 0x100,
        raw[12] % 0x100,
        raw[13] % 0x100,
        raw[14] % 0x100,
        raw[15] % 0x1_0000,
        0,
        0,
        0,
        0,
        0,
        0,
        0,
        0,
        0,
        0,
        0,
        0,
        0,
        0,
        0,
        0,
    ]
}

fn narrow_frame_end(raw: [u32; 32]) -> [u32; 32]
    ensures { result ≡ narrowed family.FrameEnd raw }
{
    [
        raw[0], 0, 0, 0, 0, 0, 0, 0, 0, 0, 0, 0, 0, 0, 0, 0, 0, 0, 0, 0, 0, 0, 0, 0, 0, 0, 0, 0, 0,
        0, 0, 0,
    ]
}

fn narrow_fod_platform(raw: [u32; 32]) -> [u32; 32]
    ensures { result ≡ narrowed family.FodPlatform raw }
{
    [
        raw[0] % 0x100,
        raw[1],
        0,
        0,
        0,
        0,
        0,
        0,
        0,
        0,
        0,
        0,
        0,
        0,
        0,
        0,
        0,
        0,
        0,
        0,
        0,
        0,
        0,
        0,
        0,
        0,
        0,
        0,
        0,
        0,
        0,
        0,
    ]
}

fn narrow_dreamland_whispy(raw: [u32; 32]) -> [u32; 32]
    ensures { result ≡ narrowed family.DreamlandWhispy raw }
{
    [
        raw[0] % 0x100,
        0,
        0,
        0,
        0,
        0,
        0,
        0,
        0,
        0,
        0,
        0,
        0,
        0,
        0,
        0,
        0,
        0,
        0,
        0,
        0,
        0,
        0,
        0,
        0,
        0,
        0,
        0,
        0,
        0,
        0,
        0,
    ]
}

fn narrow_stadium_transformation(raw: [u32; 32]) -> [u32; 32]
    ensures { result ≡ narrowed family.StadiumTransformation raw }
{
    [
        raw[0] % 0x1_0000,
        raw[1] % 0x1_0000,
        0,
        0,
        0,
        0,
        0,
        0,
        0,
        0,
        0,
        0,
        0,
        0,
        0,
        0,
        0,
        0,
        0,
        0,
        0,
        0,
        0,
        0,
        0,
        0,
        0,
        0,
        0,
        0,
        0,
        0,
    ]
}

// Of any family.
pub fn narrow(family: Family, raw: [u32; 32]) -> [u32; 32]
    ensures { result ≡ narrowed family raw }
{
    match family {
        Family::Pre => narrow_pre(raw),
        Family::Post => narrow_post(raw),
        Family::FrameStart => narrow_frame_start(raw),
        Family::Item => narrow_item(raw),
        Family::FrameEnd => narrow_frame_end(raw),
        Family::FodPlatform => narrow_fod_platform(raw),
        Family::DreamlandWhispy => narrow_dreamland_whispy(raw),
        Family::StadiumTransformation => narrow_stadium_transformation(raw),
    }
}
