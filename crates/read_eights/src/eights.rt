// Players' events into their stores: eight frames at once, or one event after another.
ghost use Rattle.std.specs.Prelude.{◌≡◌, true, ◌+◌, ◌*◌, ◌/◌, ◌≤◌, ◌<◌, eqb, length, get_or};
ghost use Rattle.grammar.specs.WellFormed.{Each};
ghost use Rattle.gather.specs.Inner.{Reach};
ghost use Rattle.layout.specs.Columns.{sum};
ghost use Rattle.read_event.specs.Parts.{WholeBy, seats, seating, SeatSpans, SeatRooms};
ghost use Rattle.read_eights.specs.Bits.{bits_put};
ghost use Rattle.read_places.specs.Inner.{is_players, seat, frame_at, frames_at};
ghost use Rattle.read_eights.specs.Inner.{SameHeads, across_at, team_at};

use format::event::FRAME_PRE;
use gather::get_records;
use read_event::seats::{block_at, put_players, with_bit};
use read_event::spans::Spans;
use read_places::scan::is_players;

// The bits of one player in eight frames, whose block is known.
fn put_bits(block: usize, frames: usize, n: usize, bits: &mut [u8])
    requires { (block * ((frames + 7) / 8) + (frames + 7) / 8 ≤ length bits.old) × (n + 8 ≤ frames) × (frames ≤ 1048576) }
    ensures { bits.new ≡ bits_put block frames 8 n bits.old }
{
    let base = block * ((frames + 7) / 8);
    let mut t: usize = 0;
    while t < 8 {
        let j = base + (n + t) / 8;
        bits[j] = with_bit(bits[j], (n + t) % 8);
        t += 1;
    }
}

// Eight events have the code and the player of the first of them.
fn is_same(file: &[u8], places: &[usize], i: usize, z: Spans) -> bool
    requires { (i + 8 ≤ length places.now)
        × Each (WholeBy z file.now) places.now
        × (7 ≤ z.pre)
        × (7 ≤ z.post)
        × (is_players (get_or file.now (get_or places.now i 0) 0) ≡ true) }
    ensures { result ≡ true → SameHeads file.now places.now i }
{
    let at = places[i];
    let code = file[at];
    let port = file[at + 5];
    let follower = file[at + 6];
    let mut t: usize = 1;
    while t < 8 {
        let p = places[i + t];
        if file[p] != code {
            return false;
        }
        if file[p + 5] != port {
            return false;
        }
        if file[p + 6] != follower {
            return false;
        }
        t += 1;
    }
    true
}

// One player's event of eight frames: its rows, and with a Pre that the player is there.
fn put_seat(
    file: &[u8],
    places: &[usize],
    i: usize,
    code: u8,
    pre: &[u8],
    post: &[u8],
    numbers: &[u32],
    frames: usize,
    n: usize,
    pres: &mut [u32],
    posts: &mut [u32],
    presence: &mut [u8],
)
    requires { (code ≡ get_or file.now (get_or places.now i 0) 0)
        × (is_players code ≡ true)
        × SameHeads file.now places.now i
        × (i + 8 ≤ length places.now)
        × (get_or places.now i 0 + 7 ≤ length file.now)
        × (eqb code 0x37 ≡ true → Reach file.now places.now i (7 + sum pre.now))
        × (eqb code 0x38 ≡ true → Reach file.now places.now i (7 + sum post.now))
        × SeatRooms (seating pre.now post.now numbers.now frames) (seats pres.old posts.old presence.old)
        × (n + 8 ≤ frames) }
    ensures { seats pres.new posts.new presence.new
        ≡ across_at (seating pre.now post.now numbers.now frames) file.now places.now i 8 (n + 1)
        (seats pres.old posts.old presence.old) }
{
    let block = block_at(file, places[i], numbers);
    if block < numbers.len() {
        if code == FRAME_PRE {
            let row = block * (pre.len() * frames) + n;
            get_records(file, places, i, 7, pre, pres, frames, row);
            put_bits(block, frames, n, presence);
            return;
        }
        let row = block * (post.len() * frames) + n;
        get_records(file, places, i, 7, post, posts, frames, row);
    }
}

// One event of a frame, by its place.
fn put_one(
    file: &[u8],
    places: &[usize],
    i: usize,
    z: Spans,
    pre: &[u8],
    post: &[u8],
    numbers: &[u32],
    frames: usize,
    n: usize,
    pres: &mut [u32],
    posts: &mut [u32],
    presence: &mut [u8],
)
    requires { (i < length places.now)
        × Each (WholeBy z file.now) places.now
        × SeatSpans z (seating pre.now post.now numbers.now frames)
        × SeatRooms (seating pre.now post.now numbers.now frames) (seats pres.old posts.old presence.old) }
    ensures { seats pres.new posts.new presence.new
        ≡ seat (seating pre.now post.now numbers.now frames) file.now n (get_or places.now i 0)
        (seats pres.old posts.old presence.old) }
{
    let at = places[i];
    put_players(
        file[at], file, at, pre, post, numbers, frames, n, pres, posts, presence,
    );
}

// One event of eight frames after another.
fn put_each(
    file: &[u8],
    places: &[usize],
    i: usize,
    z: Spans,
    pre: &[u8],
    post: &[u8],
    numbers: &[u32],
    frames: usize,
    n: usize,
    pres: &mut [u32],
    posts: &mut [u32],
    presence: &mut [u8],
)
    requires { (i + 8 ≤ length places.now)
        × Each (WholeBy z file.now) places.now
        × SeatSpans z (seating pre.now post.now numbers.now frames)
        × SeatRooms (seating pre.now post.now numbers.now frames) (seats pres.old posts.old presence.old)
        × (n ≤ frames) }
    ensures { seats pres.new posts.new presence.new
        ≡ across_at (seating pre.now post.now numbers.now frames) file.now places.now i 8 n
        (seats pres.old posts.old presence.old) }
{
    let mut t: usize = 0;
    while t < 8 {
        put_one(
            file,
            places,
            i + t,
            z,
            pre,
            post,
            numbers,
            frames,
            n + t,
            pres,
            posts,
            presence,
        );
        t += 1;
    }
}

// One event of eight frames, at once where it is one player's.
fn put_across(
    file: &[u8],
    places: &[usize],
    i: usize,
    z: Spans,
    pre: &[u8],
    post: &[u8],
    numbers: &[u32],
    frames: usize,
    n: usize,
    pres: &mut [u32],
    posts: &mut [u32],
    presence: &mut [u8],
)
    requires { (i + 8 ≤ length places.now)
        × Each (WholeBy z file.now) places.now
        × SeatSpans z (seating pre.now post.now numbers.now frames)
        × SeatRooms (seating pre.now post.now numbers.now frames) (seats pres.old posts.old presence.old)
        × (0 < n)
        × (n + 7 ≤ frames) }
    ensures { seats pres.new posts.new presence.new
        ≡ across_at (seating pre.now post.now numbers.now frames) file.now places.now i 8 n
        (seats pres.old posts.old presence.old) }
{
    let code = file[places[i]];
    if is_players(code) {
        if is_same(file, places, i, z) {
            put_seat(
                file,
                places,
                i,
                code,
                pre,
                post,
                numbers,
                frames,
                n - 1,
                pres,
                posts,
                presence,
            );
            return;
        }
    }
    put_each(
        file, places, i, z, pre, post, numbers, frames, n, pres, posts, presence,
    );
}

// Event after event, each of eight frames.
fn put_team(
    file: &[u8],
    places: &[usize],
    count: usize,
    z: Spans,
    pre: &[u8],
    post: &[u8],
    numbers: &[u32],
    frames: usize,
    n: usize,
    pres: &mut [u32],
    posts: &mut [u32],
    presence: &mut [u8],
)
    requires { (count ≤ 16)
        × (128 ≤ length places.now)
        × Each (WholeBy z file.now) places.now
        × SeatSpans z (seating pre.now post.now numbers.now frames)
        × SeatRooms (seating pre.now post.now numbers.now frames) (seats pres.old posts.old presence.old)
        × (0 < n)
        × (n + 7 ≤ frames) }
    ensures { seats pres.new posts.new presence.new
        ≡ team_at (seating pre.now post.now numbers.now frames) file.now places.now count 8 n
        (seats pres.old posts.old presence.old) }
{
    let mut j: usize = 0;
    while j < count {
        put_across(
            file,
            places,
            j * 8,
            z,
            pre,
            post,
            numbers,
            frames,
            n,
            pres,
            posts,
            presence,
        );
        j += 1;
    }
}

// The events of one frame, one after another.
fn put_frame(
    file: &[u8],
    places: &[usize],
    t: usize,
    count: usize,
    z: Spans,
    pre: &[u8],
    post: &[u8],
    numbers: &[u32],
    frames: usize,
    n: usize,
    pres: &mut [u32],
    posts: &mut [u32],
    presence: &mut [u8],
)
    requires { (t < 8)
        × (count ≤ 16)
        × (128 ≤ length places.now)
        × Each (WholeBy z file.now) places.now
        × SeatSpans z (seating pre.now post.now numbers.now frames)
        × SeatRooms (seating pre.now post.now numbers.now frames) (seats pres.old posts.old presence.old) }
    ensures { seats pres.new posts.new presence.new
        ≡ frame_at (seating pre.now post.now numbers.now frames) file.now places.now t count n
        (seats pres.old posts.old presence.old) }
{
    let mut j: usize = 0;
    while j < count {
        put_one(
            file,
            places,
            j * 8 + t,
            z,
            pre,
            post,
            numbers,
            frames,
            n,
            pres,
            posts,
            presence,
        );
        j += 1;
    }
}

// Frame after frame.
fn put_frames(
    file: &[u8],
    places: &[usize],
    count: usize,
    many: usize,
    z: Spans,
    pre: &[u8],
    post: &[u8],
    numbers: &[u32],
    frames: usize,
    n: usize,
    pres: &mut [u32],
    posts: &mut [u32],
    presence: &mut [u8],
)
    requires { (count ≤ 16)
        × (many ≤ 8)
        × (128 ≤ length places.now)
        × Each (WholeBy z file.now) places.now
        × SeatSpans z (seating pre.now post.now numbers.now frames)
        × SeatRooms (seating pre.now post.now numbers.now frames) (seats pres.old posts.old presence.old)
        × (n + many ≤ frames + 1) }
    ensures { seats pres.new posts.new presence.new
        ≡ frames_at (seating pre.now post.now numbers.now frames) file.now places.now count many n
        (seats pres.old posts.old presence.old) }
{
    let mut t: usize = 0;
    while t < many {
        put_frame(
            file,
            places,
            t,
            count,
            z,
            pre,
            post,
            numbers,
            frames,
            n + t,
            pres,
            posts,
            presence,
        );
        t += 1;
    }
}

// All events of the frames that were found.
pub fn put_batch(
    file: &[u8],
    places: &[usize],
    count: usize,
    many: usize,
    z: Spans,
    pre: &[u8],
    post: &[u8],
    numbers: &[u32],
    frames: usize,
    n: usize,
    pres: &mut [u32],
    posts: &mut [u32],
    presence: &mut [u8],
)
    requires { (count ≤ 16)
        × (many ≤ 8)
        × (128 ≤ length places.now)
        × Each (WholeBy z file.now) places.now
        × SeatSpans z (seating pre.now post.now numbers.now frames)
        × SeatRooms (seating pre.now post.now numbers.now frames) (seats pres.old posts.old presence.old)
        × (n + many ≤ frames + 1) }
    ensures { seats pres.new posts.new presence.new
        ≡ frames_at (seating pre.now post.now numbers.now frames) file.now places.now count many n
        (seats pres.old posts.old presence.old) }
{
    if many == 8 {
        if 0 < n {
            put_team(
                file, places, count, z, pre, post, numbers, frames, n, pres, posts, presence,
            );
            return;
        }
    }
    put_frames(
        file, places, count, many, z, pre, post, numbers, frames, n, pres, posts, presence,
    );
}
