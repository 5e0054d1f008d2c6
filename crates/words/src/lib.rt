// The words of a request: bytes in lower-case hex, and decimal numbers.
#![tactic(auto)]

ghost use Rattle.std.specs.Prelude.{◌≡◌, ◌+◌, ◌*◌, ◌/◌, ◌<◌, ◌≤◌, true, length, IfOk};
ghost use Rattle.std.proofs.lemmas.List.Edits.{sets};
ghost use Rattle.words.specs.Words.{value_of, digit, are_digits, if_fits, number_of, pair_bytes, hex_of, room_after};

// Why a word says no number.
#[derive(Clone, Copy, Debug, PartialEq, Eq)]
pub enum NumberError {
    NotDecimal,
    // Over 64 bits.
    TooLarge,
}

// Why a word says no bytes.
#[derive(Clone, Copy, Debug, PartialEq, Eq)]
pub enum HexError {
    NotHex,
    // An odd number of digits.
    Odd,
    // More bytes than the room has.
    TooLong,
}

// The value of a digit, "0" to "9" and "a" to "f"; 16 for any other byte. A number in place of an `Option` has no branch.
#[tactic(auto, unfolding(crate::specs::Words::value_of))]
pub fn value_of(c: u8) -> u8
    ensures { result ≡ value_of c }
{
    match c {
        b'0'..=b'9' => c - b'0',
        b'a'..=b'f' => c - b'a' + 10,
        _ => 16,
    }
}

// The value of a digit of this base.
#[tactic(auto, unfolding(crate::specs::Words::digit))]
pub fn digit(c: u8, base: u8) -> Option<u8>
    requires { base ≤ 16 }
    ensures { result ≡ digit base c }
{
    let value = value_of(c);
    (value < base).then_some(value)
}

// A number and one more decimal digit, where 64 bits hold it.
#[tactic(auto, unfolding(crate::specs::Words::if_fits))]
fn appended(number: u64, digit: u8) -> Option<u64>
    ensures { result ≡ if_fits (number * 10 + digit) }
{
    number.checked_mul(10)?.checked_add(u64::from(digit))
}

// The number that a word of decimal digits says. Zeros may lead. A word that is not decimal is told as such, however long it is.
#[tactic(auto, unfolding(crate::specs::Words::number_of, crate::specs::Words::some_digits, crate::specs::Words::are_digits, crate::specs::Words::digit, crate::specs::Words::if_fits, crate::specs::Words::decimal_value))]
pub fn decimal(word: &[u8]) -> Result<u64, NumberError>
    ensures { result ≡ number_of word.now }
{
    if word.is_empty() {
        return Err(NumberError::NotDecimal);
    }
    let mut number = Some(0);
    for c in word {
        let digit = digit(*c, 10).ok_or(NumberError::NotDecimal)?;
        number = number.and_then(|n| appended(n, digit));
    }
    number.ok_or(NumberError::TooLarge)
}

// Whether each byte is a digit of this base, from 1 to 16. It has no early exit, so that it becomes vector code.
#[tactic(auto, unfolding(crate::specs::Words::are_digits, crate::specs::Words::digit))]
fn are_digits(word: &[u8], base: u8) -> bool
    requires { 0 < base }
    ensures { result ≡ are_digits base word.now }
{
    word.iter().fold(0, |most: u8, c| most.max(value_of(*c))) < base
}

// The bytes that pairs of hex digits say, put at the start of the room.
#[tactic(auto, unfolding(crate::specs::Words::pair_bytes, crate::specs::Words::are_digits, crate::specs::Words::digit))]
fn put_pairs(room: &mut [u8], word: &[u8]) -> usize
    requires digits { are_digits 16 word.now ≡ true }
    requires held { length word.now / 2 ≤ length room.old }
    ensures count { result ≡ length word.now / 2 }
    ensures bytes { room.new ≡ sets room.old 0 (pair_bytes word.now) }
{
    let mut rest = word;
    let mut n = 0;
    while let [first, second, others @ ..] = rest {
        room[n] = value_of(*first) * 16 + value_of(*second);
        n += 1;
        rest = others;
    }
    n
}

// The bytes that a word of hex says, put at the start of the room; "-" says none.
#[tactic(auto, unfolding(crate::specs::Words::hex_of, crate::specs::Words::if_held, crate::specs::Words::is_dash, crate::specs::Words::some_digits, crate::specs::Words::pair_bytes))]
pub fn hex_bytes(room: &mut [u8], word: &[u8]) -> Result<usize, HexError>
    ensures value { result ≡ hex_of word.now (length room.old) }
    ensures room_after { room.new ≡ room_after result word.now room.old }
    ensures held { IfOk result (λ n. n ≤ length room.new) }
{
    if matches!(word, b"-") {
        return Ok(0);
    }
    if word.is_empty() || !are_digits(word, 16) {
        return Err(HexError::NotHex);
    }
    if word.len() % 2 == 1 {
        return Err(HexError::Odd);
    }
    if room.len() < word.len() / 2 {
        return Err(HexError::TooLong);
    }
    Ok(put_pairs(room, word))
}
