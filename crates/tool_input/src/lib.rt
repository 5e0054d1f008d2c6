// What people type: bytes in hex, upper or lower case and with blanks, and addresses.
#![tactic(auto)]

ghost use Rattle.std.specs.Prelude.{◌≤◌, ◌≡◌, length, take, IfOk};
ghost use Rattle.words.specs.Words.{room_after};
ghost use Rattle.tool_input.specs.Plain.{is_blank, lower_case, plain, typed_of};

pub use words::HexError;

mod address;

pub use address::{AddressError, address_bytes};

// Whether a byte is a space, a tab or the end of a line.
#[tactic(auto, unfolding(crate::specs::Plain::is_blank))]
fn is_blank(c: u8) -> bool
    ensures { result ≡ is_blank c }
{
    matches!(c, b' ' | 9..=13)
}

// "a" to "f" of "A" to "F", and any other byte as it is.
#[tactic(auto, unfolding(crate::specs::Plain::lower_case))]
fn lower(c: u8) -> u8
    ensures { result ≡ lower_case c }
{
    match c {
        b'A'..=b'F' => c + 32,
        _ => c,
    }
}

// The word as lower-case hex has it, without its blanks, at the start of the room.
#[tactic(auto, using(crate::proofs::Plain::plain_next), unfolding(crate::specs::Plain::plain_byte, crate::specs::Plain::plain))]
fn put_plain(room: &mut [u8], word: &[u8]) -> usize
    requires { length word.now ≤ length room.old }
    ensures held { result ≤ length room.new }
    ensures count { result ≡ length (plain word.now) }
    ensures bytes { take result room.new ≡ plain word.now }
{
    let mut end = 0;
    for c in word {
        if is_blank(*c) {
            continue;
        }
        room[end] = lower(*c);
        end += 1;
    }
    end
}

// The bytes that a word of hex says, put at the start of the room. The scratch is as long as the word, or longer.
#[tactic(auto, unfolding(crate::specs::Plain::typed_of, words::specs::Words::pair_bytes))]
pub fn hex_bytes(room: &mut [u8], scratch: &mut [u8], word: &[u8]) -> Result<usize, HexError>
    ensures value { result ≡ typed_of word.now (length scratch.old) (length room.old) }
    ensures room_after { room.new ≡ room_after result (plain word.now) room.old }
    ensures held { IfOk result (λ n. n ≤ length room.new) }
{
    if scratch.len() < word.len() {
        return Err(HexError::TooLong);
    }
    let n = put_plain(scratch, word);
    if n == 0 {
        return Ok(0);
    }
    words::hex_bytes(room, &scratch[..n])
}
