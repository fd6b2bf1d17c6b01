// Players: an event's bytes into the row of its frame in its slot's block, and the bit that says that the player is there.
ghost use Rattle.std.specs.Prelude.{◌≡◌, true, ◌+◌, ◌*◌, ◌/◌, ◌%◌, ◌^◌, ◌≤◌, ◌<◌, eqb, length, get_or};
ghost use Rattle.format.specs.File.{index_of};
ghost use Rattle.read_event.specs.Inner.{Roomy, told_at, block_of, player_put, bit_put, Long};

use format::event::{FRAME_POST, FRAME_PRE};

// Which of the slots' numbers comes first with this value; behind all of them where none has it.
fn block_of(numbers: &[u32], slot: usize) -> usize
    ensures { result ≡ index_of slot numbers.now }
{
    for k in 0..numbers.len() {
        if numbers[k] as usize == slot {
            return k;
        }
    }
    numbers.len()
}

// The block of the player whose event stands at a place.
pub fn block_at(file: &[u8], at: usize, numbers: &[u32]) -> usize
    requires { at + 7 ≤ length file.now }
    ensures { result ≡ block_of numbers.now (told_at file.now at) }
{
    let slot = 2 * wire::wide(file[at + 5]) + wire::wide(file[at + 6]);
    block_of(numbers, slot)
}

// A player's row, where the event is of the family; n frames began.
pub fn put_player(
    on: bool,
    file: &[u8],
    at: usize,
    widths: &[u8],
    numbers: &[u32],
    frames: usize,
    n: usize,
    cells: &mut [u32],
)
    requires { Long file.now (at + 7) on widths.now × Roomy widths.now cells.old (length numbers.now) frames × (frames ≤ 1048576) }
    ensures { cells.new
        ≡ player_put on widths.now numbers.now (told_at file.now at) frames n cells.old }
{
    if on {
        if 0 < n {
            if n - 1 < frames {
                let block = block_at(file, at, numbers);
                if block < numbers.len() {
                    record::get(
                        file,
                        at + 7,
                        widths,
                        cells,
                        frames,
                        block * (widths.len() * frames) + (n - 1),
                    );
                }
            }
        }
    }
}

// A bit more in a byte; over a byte's numbers it comes round.
pub fn with_bit(b: u8, k: usize) -> u8
    requires { k < 8 }
    ensures { result ≡ (b + 2 ^ k) % 256 }
{
    b.wrapping_add(1 << k)
}

// A player's bit, where the event is of the family; n frames began.
pub fn put_bit(
    on: bool,
    file: &[u8],
    at: usize,
    numbers: &[u32],
    frames: usize,
    n: usize,
    bits: &mut [u8],
)
    requires { (on ≡ true → at + 7 ≤ length file.now) × (length numbers.now * ((frames + 7) / 8) ≤ length bits.old) × (frames ≤ 1048576) }
    ensures { bits.new ≡ bit_put on numbers.now (told_at file.now at) frames n bits.old }
{
    if on {
        if 0 < n {
            if n - 1 < frames {
                let block = block_at(file, at, numbers);
                if block < numbers.len() {
                    let j = block * ((frames + 7) / 8) + (n - 1) / 8;
                    bits[j] = with_bit(bits[j], (n - 1) % 8);
                }
            }
        }
    }
}

// What an event says of a player: its rows, and with its Pre that it is there.
pub fn put_players(
    code: u8,
    file: &[u8],
    at: usize,
    pre: &[u8],
    post: &[u8],
    numbers: &[u32],
    frames: usize,
    n: usize,
    pres: &mut [u32],
    posts: &mut [u32],
    presence: &mut [u8],
)
    requires { (Long file.now (at + 7) (eqb code 0x37) pre.now × Roomy pre.now pres.old (length numbers.now) frames)
        × (Long file.now (at + 7) (eqb code 0x38) post.now × Roomy post.now posts.old (length numbers.now) frames)
        × (length numbers.now * ((frames + 7) / 8) ≤ length presence.old)
        × (frames ≤ 1048576) }
    ensures { (pres.new
        ≡ player_put (eqb code 0x37) pre.now numbers.now (told_at file.now at) frames n pres.old)
        × (posts.new
        ≡ player_put (eqb code 0x38) post.now numbers.now (told_at file.now at) frames n posts.old)
        × (presence.new
        ≡ bit_put (eqb code 0x37) numbers.now (told_at file.now at) frames n presence.old) }
{
    if code == FRAME_PRE {
        put_player(code == FRAME_PRE, file, at, pre, numbers, frames, n, pres);
        put_bit(code == FRAME_PRE, file, at, numbers, frames, n, presence);
        return;
    }
    put_player(
        code == FRAME_POST,
        file,
        at,
        post,
        numbers,
        frames,
        n,
        posts,
    );
}
