// An IPv4 address in text, in dotted decimal, written into a lent room; and how long it is.
#![tactic(auto)]

ghost use Rattle.std.specs.Prelude.{◌+◌, ◌≤◌, ◌≡◌, length};
ghost use Rattle.rules.specs.Address.{ipv4_text};
ghost use Rattle.put.specs.Wrote.{Wrote};

use numeral::{decimal_length, put_decimal};
use put::put_byte;

// An IPv4 address in dotted decimal: its first byte, and each further one after a ".".
pub fn put_ipv4(room: &mut [u8], at: usize, address: &[u8]) -> usize
    requires four_bytes { length address.now ≡ 4 }
    requires room_enough { at + length (ipv4_text address.now) ≤ length room.old }
    ensures { Wrote room.old at (ipv4_text address.now) room.new result }
{
    let further = &address[1..];
    let mut o = put_decimal(room, at, u16::from(address[0]));
    for b in further {
        let p = put_byte(room, o, b'.');
        o = put_decimal(room, p, u16::from(*b));
    }
    o
}

// How long the text of an IPv4 address is.
pub fn ipv4_length(address: &[u8]) -> usize
    requires { length address.now ≡ 4 }
    ensures { result ≡ length (ipv4_text address.now) }
{
    let dots = 3;
    let mut digits = 0;
    for b in address {
        digits += decimal_length(u16::from(*b));
    }
    digits + dots
}
