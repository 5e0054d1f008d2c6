// An IPv6 address in text, by RFC 5952, written into a lent room; and how long it is.
#![tactic(auto)]

ghost use Rattle.std.specs.Prelude.{◌+◌, ◌≤◌, ◌<◌, ◌≡◌, length};
ghost use Rattle.rules.specs.Address.{groups, hex_groups, hex_text, mapped, ipv6_text};
ghost use Rattle.put.specs.Wrote.{Wrote};
ghost use Rattle.ipv6.specs.Zeros.{with_group, zeros_from};

use ipv4::{ipv4_length, put_ipv4};
use numeral::{hex_length, put_hex};
use put::{put_byte, put_bytes};

// What an IPv4-mapped address begins with.
static MAPPED_START: [u8; 12] = [0, 0, 0, 0, 0, 0, 0, 0, 0, 0, 0xff, 0xff];

// Whether an address is IPv4-mapped. Few addresses have the last byte of the twelve, so it is tested first.
#[tactic(auto, using(crate::proofs::Mapped::mapped_last), unfolding(rules::specs::Address::mapped))]
fn is_mapped(address: &[u8]) -> bool
    requires { length address.now ≡ 16 }
    ensures { result ≡ mapped address.now }
{
    address[11] == 0xff && &address[..12] == &MAPPED_START[..]
}

// The groups of an address.
fn groups_of(address: &[u8]) -> [u16; 8]
    requires { length address.now ≡ 16 }
    ensures { result ≡ groups address.now }
{
    let mut groups = [0; 8];
    for k in 0..8 {
        groups[k] = u16::from_be_bytes([address[2 * k], address[2 * k + 1]]);
    }
    groups
}

// Of the groups from one on: how many zeros they begin with, and where the longest run of zeros begins and how long it is.
#[derive(Clone, Copy)]
struct Zeros {
    here: usize,
    at: usize,
    size: usize,
}

// With one group more, which is group k, before the others.
fn with_group(k: usize, g: u16, z: Zeros) -> Zeros
    requires { z.here < 8 }
    ensures { result ≡ with_group k g z }
{
    let here = if g == 0 { z.here + 1 } else { 0 };
    if z.size <= here {
        Zeros {
            here,
            at: k,
            size: here,
        }
    } else {
        Zeros { here, ..z }
    }
}

// The longest run of zero groups, the first of the longest.
fn longest_run(groups: &[u16]) -> Zeros
    requires { length groups.now ≡ 8 }
    ensures run { result ≡ zeros_from 0 groups.now }
    ensures inside { result.at + result.size ≤ 8 }
{
    let mut z = Zeros {
        here: 0,
        at: 8,
        size: 0,
    };
    for k in (0..8).rev() {
        z = with_group(k, groups[k], z);
    }
    z
}

// Groups in hex, with ":" between any two.
fn put_groups(room: &mut [u8], at: usize, groups: &[u16]) -> usize
    requires { at + length (hex_groups groups.now) ≤ length room.old }
    ensures { Wrote room.old at (hex_groups groups.now) room.new result }
{
    match groups {
        [] => at,
        [first, further @ ..] => {
            let mut o = put_hex(room, at, *first);
            for g in further {
                let p = put_byte(room, o, b':');
                o = put_hex(room, p, *g);
            }
            o
        }
    }
}

// How long groups are in hex, with ":" between any two.
fn groups_length(groups: &[u16]) -> usize
    requires { length groups.now ≤ 8 }
    ensures { result ≡ length (hex_groups groups.now) }
{
    match groups {
        [] => 0,
        [first, further @ ..] => {
            let mut total = hex_length(*first);
            for g in further {
                total += 1 + hex_length(*g);
            }
            total
        }
    }
}

// An address in hex groups, its longest run of at least two zero groups as "::".
fn put_hex_text(room: &mut [u8], at: usize, address: &[u8]) -> usize
    requires sixteen_bytes { length address.now ≡ 16 }
    requires room_enough { at + length (hex_text address.now) ≤ length room.old }
    ensures { Wrote room.old at (hex_text address.now) room.new result }
{
    let groups = groups_of(address);
    let run = longest_run(&groups);
    if run.size < 2 {
        return put_groups(room, at, &groups);
    }
    let p = put_groups(room, at, &groups[..run.at]);
    let q = put_bytes(room, p, b"::");
    put_groups(room, q, &groups[run.at + run.size..])
}

// How long an address is in hex groups.
fn hex_text_length(address: &[u8]) -> usize
    requires { length address.now ≡ 16 }
    ensures { result ≡ length (hex_text address.now) }
{
    let groups = groups_of(address);
    let run = longest_run(&groups);
    if run.size < 2 {
        return groups_length(&groups);
    }
    groups_length(&groups[..run.at]) + 2 + groups_length(&groups[run.at + run.size..])
}

// An IPv6 address, by RFC 5952: in the mixed form where it is IPv4-mapped, else in hex groups.
pub fn put_ipv6(room: &mut [u8], at: usize, address: &[u8]) -> usize
    requires sixteen_bytes { length address.now ≡ 16 }
    requires room_enough { at + length (ipv6_text address.now) ≤ length room.old }
    ensures { Wrote room.old at (ipv6_text address.now) room.new result }
{
    if is_mapped(address) {
        let p = put_bytes(room, at, b"::ffff:");
        return put_ipv4(room, p, &address[12..]);
    }
    put_hex_text(room, at, address)
}

// How long the text of an IPv6 address is.
pub fn ipv6_length(address: &[u8]) -> usize
    requires { length address.now ≡ 16 }
    ensures { result ≡ length (ipv6_text address.now) }
{
    if is_mapped(address) {
        return 7 + ipv4_length(&address[12..]);
    }
    hex_text_length(address)
}
