// The text of an address, IPv4 or IPv6: URI text and Uri-Host have it.
#![tactic(auto)]

ghost use Rattle.std.specs.Prelude.{◌+◌, ◌≤◌, ◌≡◌, true, length};
ghost use Rattle.rules.specs.Rules.{address_size};
ghost use Rattle.rules.specs.Address.{address_text};
ghost use Rattle.put.specs.Wrote.{Wrote};

use ipv4::{ipv4_length, put_ipv4};
use ipv6::{ipv6_length, put_ipv6};
use put::put_byte;

// How long the text of an address is.
#[tactic(auto, using(ipv6::proofs::Mapped::ipv6_fits), unfolding(rules::specs::Address::address_text))]
pub fn address_length(address: &[u8]) -> usize
    requires { address_size (length address.now) ≡ true }
    ensures { result ≡ length (address_text address.now) }
{
    if address.len() == 4 {
        return ipv4_length(address);
    }
    ipv6_length(address) + 2
}

// The text of an address, that of an IPv6 address in brackets.
pub fn put_address(room: &mut [u8], at: usize, address: &[u8]) -> usize
    requires size { address_size (length address.now) ≡ true }
    requires room_enough { at + length (address_text address.now) ≤ length room.old }
    ensures { Wrote room.old at (address_text address.now) room.new result }
{
    if address.len() == 4 {
        return put_ipv4(room, at, address);
    }
    let p = put_byte(room, at, b'[');
    let q = put_ipv6(room, p, address);
    put_byte(room, q, b']')
}
