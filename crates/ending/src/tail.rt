// The tail of a replay, after its events.
ghost use Rattle.wire.specs.Wire.{Room, Wrote, keep};
ghost use Rattle.ending.specs.Tail.{metadata_of, tail_of};

// The key "metadata" and the brace that opens its map: U\x08metadata{
pub const METADATA_KEY: [u8; 11] = [
    0x55, 0x08, 0x6d, 0x65, 0x74, 0x61, 0x64, 0x61, 0x74, 0x61, 0x7b,
];

// The metadata's map, whose body comes encoded. Whether it is given stands apart from its bytes, as the C interface lends them.
fn put_metadata(out: &mut [u8], at: usize, given: bool, metadata: &[u8]) -> usize
    requires { Room out.old at (keep given (metadata_of metadata.now)) }
    ensures { Wrote out.old out.new at result (keep given (metadata_of metadata.now)) }
{
    if given {
        let mut p = wire::put_bytes(out, at, &METADATA_KEY);
        p = wire::put_bytes(out, p, metadata);
        return wire::put_u8(out, p, 0x7d);
    }
    at
}

// The metadata, where it is given, and the brace that closes the file's map.
pub fn put_tail(out: &mut [u8], at: usize, given: bool, metadata: &[u8]) -> usize
    requires { Room out.old at (tail_of given metadata.now) }
    ensures { Wrote out.old out.new at result (tail_of given metadata.now) }
{
    let p = put_metadata(out, at, given, metadata);
    wire::put_u8(out, p, 0x7d)
}
