// The heads of CBOR items (STD 94, section 3), written into a lent room, and how long they are.
#![tactic(auto)]

ghost use Rattle.std.specs.Prelude.{◌≡◌, ◌+◌, ◌≤◌, length};
ghost use Rattle.rules.specs.Head.{Kind as RulesKind, shortest, major_of, head_bytes};
ghost use Rattle.put.specs.Wrote.{Wrote};
ghost use Rattle.cbor.specs.Heads.{kind_is};

use cbor::Kind;
use put::{put_big_endian, put_byte};

// The head information that the shortest head of a number has.
fn shortest_of(v: u64) -> u8
    ensures { result ≡ shortest v }
{
    if v < 24 {
        return v as u8;
    }
    if v < 256 {
        return 24;
    }
    if v < 65536 {
        return 25;
    }
    if v < 4294967296 {
        return 26;
    }
    27
}

// How many bytes the shortest head of a number has, for every kind.
pub fn head_length(v: u64) -> usize
    ensures { (k : RulesKind) → result ≡ length (head_bytes k v) }
{
    match shortest_of(v) {
        24 => 2,
        25 => 3,
        26 => 5,
        27 => 9,
        _ => 1,
    }
}

// STD 94, section 3: the major type of a kind.
#[tactic(auto, unfolding(rules::specs::Head::major_of))]
fn major_of(kind: Kind) -> u8
    ensures { result ≡ major_of (kind_is kind) }
{
    match kind {
        Kind::Number => 0,
        Kind::Negative => 1,
        Kind::ByteString => 2,
        Kind::Text => 3,
        Kind::Array => 4,
        Kind::True => 7,
        Kind::Null => 7,
        Kind::Other => 7,
    }
}

// The shortest head of this kind and number: true is 21, null 22.
pub fn put_head(room: &mut [u8], at: usize, kind: Kind, v: u64) -> usize
    requires { at + length (head_bytes (kind_is kind) v) ≤ length room.old }
    ensures { Wrote room.old at (head_bytes (kind_is kind) v) room.new result }
{
    let p = put_byte(room, at, major_of(kind) * 32 + shortest_of(v));
    put_big_endian(room, p, head_length(v) - 1, v)
}
