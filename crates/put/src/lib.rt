// Writing pieces into a lent room. Each piece says by `Wrote` what it leaves, and answers the place after it.
#![tactic(auto)]

ghost use Rattle.std.specs.Prelude.{◌≡◌, ◌+◌, ◌≤◌, ◌<◌, [], ◌∷◌, length};
ghost use Rattle.rules.specs.Bytes.{part, big_endian};
ghost use Rattle.put.specs.Wrote.{Wrote};

// One byte.
pub fn put_byte(room: &mut [u8], at: usize, b: u8) -> usize
    requires { at < length room.old }
    ensures { Wrote room.old at (b ∷ []) room.new result }
{
    room[at] = b;
    at + 1
}

// The first N bytes and the last N, which together are all of them. A copy of a constant number of bytes is not a call.
fn copy_ends<const N: usize>(room: &mut [u8], text: &[u8])
    requires length { (N ≤ length text.now) × (length text.now ≤ N + N) }
    requires room_length { length room.old ≡ length text.now }
    ensures { room.new ≡ text.now }
{
    let last = text.len() - N;
    room[..N].copy_from_slice(&text[..N]);
    room[last..].copy_from_slice(&text[last..]);
}

// What copy_from_slice does for a short text. It calls memmove, which takes longer on the few bytes that most texts have.
fn copy(room: &mut [u8], text: &[u8])
    requires short { length text.now ≤ 32 }
    requires room_length { length room.old ≡ length text.now }
    ensures { room.new ≡ text.now }
{
    match text.len() {
        0..4 => {
            for (i, b) in text.iter().enumerate() {
                room[i] = *b;
            }
        }
        4..8 => copy_ends::<4>(room, text),
        8..16 => copy_ends::<8>(room, text),
        _ => copy_ends::<16>(room, text),
    }
}

// How many bytes of a long text are copied at once.
const BLOCK: usize = 32;

// So many bytes of a text, from a position on.
fn put_block(room: &mut [u8], at: usize, text: &[u8], from: usize) -> usize
    requires from_in_bounds { from + 32 ≤ length text.now }
    requires at_in_bounds { at + 32 ≤ length room.old }
    ensures { Wrote room.old at (part text.now from 32) room.new result }
{
    let end = at + BLOCK;
    room[at..end].copy_from_slice(&text[from..from + BLOCK]);
    end
}

// A text of a block or more, block by block: a program that links this needs no memmove. Of the last block some or all may be written for the second time.
fn put_blocks(room: &mut [u8], at: usize, text: &[u8]) -> usize
    requires a_block { 32 ≤ length text.now }
    requires room_enough { at + length text.now ≤ length room.old }
    ensures { Wrote room.old at text.now room.new result }
{
    for i in 0..text.len() / BLOCK {
        put_block(room, at + i * BLOCK, text, i * BLOCK);
    }
    let last = text.len() - BLOCK;
    put_block(room, at + last, text, last)
}

// All of a byte string.
pub fn put_bytes(room: &mut [u8], at: usize, text: &[u8]) -> usize
    requires { at + length text.now ≤ length room.old }
    ensures { Wrote room.old at text.now room.new result }
{
    if 32 < text.len() {
        return put_blocks(room, at, text);
    }
    let end = at + text.len();
    copy(&mut room[at..end], text);
    end
}

// The lowest bytes of v, at most 8, the highest first. A loop over them takes less time on the few bytes that most numbers have than a copy of v.to_be_bytes().
pub fn put_big_endian(room: &mut [u8], at: usize, width: usize, v: u64) -> usize
    requires { (width ≤ 8) × (at + width ≤ length room.old) }
    ensures { Wrote room.old at (big_endian width v []) room.new result }
{
    for i in 0..width {
        room[at + i] = ((v >> (8 * (width - i - 1))) % 256) as u8;
    }
    at + width
}
