// Addresses: dotted, IPv6 (RFC 4291, section 2.2) or hex.
ghost use Rattle.std.specs.Prelude.{◌≡◌, ◌≤◌, ◌<◌, true, false, length, Err, IfOk};
ghost use Rattle.words.specs.Words.{room_after};
ghost use Rattle.words.specs.declared.HexError.TheVariants as HexErrorV;
ghost use Rattle.tool_input.specs.declared.address.AddressError.TheVariants as AddressErrorV;
ghost use Rattle.tool_input.specs.Plain.{plain, typed_of};
ghost use Rattle.tool_input.specs.Address.{has, without_brackets, ReadsIpv6, PutsIpv6, ReadsDotted, as_address};

use crate::{HexError, hex_bytes};
use std::net::{Ipv4Addr, Ipv6Addr};

// Why a word is no address.
#[derive(Clone, Copy, Debug, PartialEq, Eq)]
pub enum AddressError {
    NotDotted,
    NotIpv6,
    Hex(HexError),
}

impl From<HexError> for AddressError {
    ghost use Rattle.std.specs.Prelude.{◌≡◌};
    ghost use Rattle.tool_input.specs.declared.address.AddressError.TheVariants as AddressErrorV;

    ghost from_gives = { λ e r. r ≡ AddressErrorV.Hex e };

    fn from(error: HexError) -> AddressError {
        AddressError::Hex(error)
    }
}

// What stands in brackets, if the word has them.
#[tactic(auto, unfolding(crate::specs::Address::without_brackets, crate::specs::Address::is_bracketed))]
fn without_brackets(word: &[u8]) -> &[u8]
    ensures { result.now ≡ without_brackets word.now }
{
    match word {
        [b'[', inner @ .., b']'] => inner,
        _ => word,
    }
}

// The bytes of an address, put at the start of the room: IPv6, in brackets or not, where the word has a colon, dotted where it has a dot,
// else hex. In a room of fewer than 16 none has place.
#[tactic(auto, unfolding(crate::specs::Address::has))]
pub fn address_bytes(
    room: &mut [u8],
    scratch: &mut [u8],
    word: &[u8],
) -> Result<usize, AddressError>
    ensures short { length room.old < 16 → (result ≡ Err (AddressErrorV.Hex HexErrorV.TooLong)) × (room.new ≡ room.old) }
    ensures ipv6 { 16 ≤ length room.old → has 0x3A word.now ≡ true → PutsIpv6 (without_brackets word.now) room.old result room.new }
    ensures ipv6_alone { length room.old ≡ 16 → has 0x3A word.now ≡ true → ReadsIpv6 (without_brackets word.now) room.old result room.new }
    ensures dotted { 16 ≤ length room.old → has 0x3A word.now ≡ false → has 0x2E word.now ≡ true → ReadsDotted word.now room.old result room.new }
    ensures hex { 16 ≤ length room.old → has 0x3A word.now ≡ false → has 0x2E word.now ≡ false
        → (result ≡ as_address (typed_of word.now (length scratch.old) (length room.old)))
        × (room.new ≡ room_after (typed_of word.now (length scratch.old) (length room.old)) (plain word.now) room.old) }
    ensures held { IfOk result (λ n. n ≤ length room.new) }
{
    if room.len() < 16 {
        return Err(AddressError::Hex(HexError::TooLong));
    }
    if word.contains(&b':') {
        let Ok(address) = Ipv6Addr::parse_ascii(without_brackets(word)) else {
            return Err(AddressError::NotIpv6);
        };
        room[..16].copy_from_slice(&address.octets());
        return Ok(16);
    }
    if word.contains(&b'.') {
        let Ok(address) = Ipv4Addr::parse_ascii(word) else {
            return Err(AddressError::NotDotted);
        };
        room[..4].copy_from_slice(&address.octets());
        return Ok(4);
    }
    Ok(hex_bytes(room, scratch, word)?)
}

#[cfg(test)]
mod tests {
    use super::*;

    // Examples of RFC 4291, section 2.2, one of them in brackets, in a room that the address fills.
    #[test]
    fn fills_16_bytes(rt: HostRuntime) {
        let written: [(&str, [u8; 16]); 5] = [
            (
                "2001:DB8::8:800:200C:417A",
                [
                    0x20, 0x01, 0x0D, 0xB8, 0, 0, 0, 0, 0, 8, 8, 0, 0x20, 0x0C, 0x41, 0x7A,
                ],
            ),
            (
                "[FF01::101]",
                [0xFF, 0x01, 0, 0, 0, 0, 0, 0, 0, 0, 0, 0, 0, 0, 0x01, 0x01],
            ),
            ("::1", [0, 0, 0, 0, 0, 0, 0, 0, 0, 0, 0, 0, 0, 0, 0, 1]),
            ("::", [0, 0, 0, 0, 0, 0, 0, 0, 0, 0, 0, 0, 0, 0, 0, 0]),
            (
                "::FFFF:129.144.52.38",
                [0, 0, 0, 0, 0, 0, 0, 0, 0, 0, 0xFF, 0xFF, 129, 144, 52, 38],
            ),
        ];
        for (text, address) in written {
            let mut room = [0xAA; 16];
            assert_eq!(rt;
                address_bytes(&mut room, &mut [0; 64], text.as_bytes()),
                Ok(16),
                "{text}"
            );
            assert_eq!(rt; room, address, "{text}");
        }
    }
}
