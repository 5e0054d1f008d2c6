// Numerals without leading zeros written into a lent room, decimal and in lower-case hex, and how long they are.
#![tactic(auto)]

ghost use Rattle.std.specs.Prelude.{◌+◌, ◌≤◌, ◌<◌, ◌≡◌, length};
ghost use Rattle.rules.specs.Numeral.{digit_byte, numeral, decimal};
ghost use Rattle.put.specs.Wrote.{Wrote};
ghost use Rattle.numeral.specs.Scales.{digit_at};

use put::put_byte;

static DIGITS: [u8; 16] = *b"0123456789abcdef";

// The digit of a value.
fn digit(value: u16) -> u8
    requires { value < 16 }
    ensures { result ≡ digit_byte value }
{
    DIGITS[value as usize]
}

// The digit of n at a scale, where n reaches it.
fn put_digit<const BASE: u16>(room: &mut [u8], at: usize, n: u16, scale: u16) -> usize
    requires base { (0 < BASE) × (BASE ≤ 16) }
    requires scale { (0 < scale) × (at + length (digit_at BASE scale n) ≤ length room.old) }
    ensures { Wrote room.old at (digit_at BASE scale n) room.new result }
{
    if n < scale {
        return at;
    }
    put_byte(room, at, digit(n / scale % BASE))
}

// How long the decimal numeral of n is.
#[tactic(auto, using(crate::proofs::Scales::length_decimal, crate::proofs::Scales::length_digit))]
pub fn decimal_length(n: u16) -> usize
    ensures { result ≡ length (decimal n) }
{
    usize::from(n >= 10)
        + usize::from(n >= 100)
        + usize::from(n >= 1000)
        + usize::from(n >= 10000)
        + 1
}

// How long the hex numeral of n is.
#[tactic(auto, using(crate::proofs::Scales::length_hex, crate::proofs::Scales::length_digit))]
pub fn hex_length(n: u16) -> usize
    ensures { result ≡ length (numeral 16 4 n) }
{
    usize::from(n >= 0x10) + usize::from(n >= 0x100) + usize::from(n >= 0x1000) + 1
}

// n in decimal.
#[tactic(auto, using(crate::proofs::Scales::length_decimal))]
pub fn put_decimal(room: &mut [u8], at: usize, n: u16) -> usize
    requires { at + length (decimal n) ≤ length room.old }
    ensures { Wrote room.old at (decimal n) room.new result }
{
    let a = put_digit::<10>(room, at, n, 10000);
    let b = put_digit::<10>(room, a, n, 1000);
    let c = put_digit::<10>(room, b, n, 100);
    let d = put_digit::<10>(room, c, n, 10);
    put_byte(room, d, digit(n % 10))
}

// n in hex.
#[tactic(auto, using(crate::proofs::Scales::length_hex))]
pub fn put_hex(room: &mut [u8], at: usize, n: u16) -> usize
    requires { at + length (numeral 16 4 n) ≤ length room.old }
    ensures { Wrote room.old at (numeral 16 4 n) room.new result }
{
    let a = put_digit::<16>(room, at, n, 0x1000);
    let b = put_digit::<16>(room, a, n, 0x100);
    let c = put_digit::<16>(room, b, n, 0x10);
    put_byte(room, c, digit(n % 16))
}
