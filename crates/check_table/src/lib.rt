// Whether a file's payload table is the one that document 01 has for a version.
#![tactic(auto)]

ghost use Rattle.std.specs.Prelude.{◌≡◌, ◌≤◌, ◌<◌, length};
ghost use Rattle.check_table.specs.Table.{table_is};

use format::version::Version;

// Whether the table of a file is a version's, to the byte, with a start block of `block` bytes and codes of `actual` bytes listed or not.
pub fn is_table(file: &[u8], v: Version, block: usize, given: bool, actual: usize) -> bool
    requires { (15 ≤ length file.now) × (block < 65536) }
    ensures { result ≡ table_is file.now v block given actual }
{
    let mut table = [0u8; 38];
    let low = (actual % 65536) as u32;
    let n = layout::payloads::put_table(&mut table, 0, v, block, given, low);
    file[15..].starts_with(&table[..n])
}
