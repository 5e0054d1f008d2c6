// Texts, bytes and addresses.
ghost use Rattle.std.specs.Prelude.{◌≡◌, ◌≤◌, length};
ghost use Rattle.rules.specs.Address.{ipv4_text, ipv6_text};
ghost use Rattle.put.specs.Wrote.{Wrote};

use ipv4::put_ipv4;
use ipv6::put_ipv6;
use output::Output;
use std::fmt;

// Bytes in hex, "-" where there are none.
pub fn say_bytes(out: &mut Output, s: &[u8]) {
    if s.is_empty() {
        return out.byte(b'-');
    }
    out.hex(s);
}

// Whether a byte is a printable character of ASCII.
pub fn is_printable(b: u8) -> bool {
    matches!(b, b' '..=b'~')
}

// A text in quotation marks: a quotation mark and a backslash after a backslash, and what is not printable as "\x" and two hex digits.
#[derive(Clone, Copy)]
pub struct Quoted<'a>(pub &'a [u8]);

impl fmt::Display for Quoted<'_> {
    fn fmt<W: fmt::Write>(&self, f: &mut fmt::Formatter<W>) -> fmt::Result {
        f.write_str("\"")?;
        for b in self.0 {
            match *b {
                b'"' => f.write_str("\\\"")?,
                b'\\' => f.write_str("\\\\")?,
                b if is_printable(b) => f.write_char(char::from(b))?,
                b => write!(f, "\\x{b:02x}")?,
            }
        }
        f.write_str("\"")
    }
}

// The text of an address, at the start of the room: of 4 bytes dotted, of 16 by RFC 5952, without brackets. No other bytes are one.
fn put_text(room: &mut [u8; 64], address: &[u8]) -> usize
    ensures ipv4 { length address.now ≡ 4 → Wrote room.old 0 (ipv4_text address.now) room.new result }
    ensures ipv6 { length address.now ≡ 16 → Wrote room.old 0 (ipv6_text address.now) room.new result }
    ensures other { (length address.now ≡ 4 → ⊥) → (length address.now ≡ 16 → ⊥) → result ≡ 0 }
    ensures held { result ≤ 64 }
{
    match address.len() {
        4 => put_ipv4(room, 0, address),
        16 => put_ipv6(room, 0, address),
        _ => 0,
    }
}

// An address.
#[derive(Clone, Copy)]
pub struct Address<'a>(pub &'a [u8]);

impl fmt::Display for Address<'_> {
    fn fmt<W: fmt::Write>(&self, f: &mut fmt::Formatter<W>) -> fmt::Result {
        let mut room = [0u8; 64];
        let end = put_text(&mut room, self.0);
        for b in &room[..end] {
            f.write_char(char::from(*b))?;
        }
        Ok(())
    }
}
