// The coding of CoAP options: one option, and the options of texts that stand in a row; how long they are, and writing them into a lent room.
#![tactic(auto)]

ghost use Rattle.std.specs.Prelude.{◌+◌, ◌<◌, ◌≤◌, ◌≡◌, length};
ghost use Rattle.rules.specs.Bytes.{Bytes};
ghost use Rattle.rules.specs.Model.{limits};
ghost use Rattle.rules.specs.Options.{nibble, extension, option_bytes};
ghost use Rattle.rules.specs.Reader.{contents};
ghost use Rattle.rules.specs.Standing.{RowAt};
ghost use Rattle.put.specs.Wrote.{Wrote};
ghost use Rattle.coap_coding.specs.Coded.{Small, AllSmall, coded};

use cbor_rows::{Row, texts_at};
use put::{put_byte, put_bytes};

// ---- a delta or a length below 269: its nibble, and the byte that follows from 13 on

// The nibble.
#[tactic(auto, using(crate::proofs::Coded::nibble_is))]
fn nibble_of(n: usize) -> u8
    requires { Small n }
    ensures { result ≡ nibble n }
{
    n.min(13) as u8
}

// How many bytes follow.
#[tactic(auto, using(crate::proofs::Coded::extension_none, crate::proofs::Coded::extension_one))]
fn extension_length(n: usize) -> usize
    requires { Small n }
    ensures { result ≡ length (extension n) }
{
    if n < 13 { 0 } else { 1 }
}

// The bytes that follow.
#[tactic(auto, using(crate::proofs::Coded::extension_none, crate::proofs::Coded::extension_one, put::proofs::Wrote::wrote_none))]
fn put_extension(room: &mut [u8], at: usize, n: usize) -> usize
    requires small { Small n }
    requires n_in_bounds { at + length (extension n) ≤ length room.old }
    ensures { Wrote room.old at (extension n) room.new result }
{
    if n < 13 {
        return at;
    }
    put_byte(room, at, (n - 13) as u8)
}

// ---- one option

// How long an option is whose value has n bytes.
#[tactic(auto, using(crate::proofs::Coded::extension_most, crate::proofs::Coded::option_size_of))]
pub fn option_length(delta: usize, n: usize) -> usize
    requires { Small delta × Small n }
    ensures { (value : Bytes) → length value ≡ n → result ≡ length (option_bytes delta value) }
{
    1 + extension_length(delta) + extension_length(n) + n
}

// An option: the nibbles, what follows each, and the value.
#[tactic(auto, using(crate::proofs::Coded::nibble_most, crate::proofs::Coded::option_size, put::proofs::Wrote::wrote_length))]
pub fn put_option(room: &mut [u8], at: usize, delta: usize, value: &[u8]) -> usize
    requires small { Small delta × Small (length value.now) }
    requires room_enough { at + length (option_bytes delta value.now) ≤ length room.old }
    ensures { Wrote room.old at (option_bytes delta value.now) room.new result }
{
    let n = value.len();
    let p = put_byte(room, at, nibble_of(delta) * 16 + nibble_of(n));
    let q = put_extension(room, p, delta);
    let r = put_extension(room, q, n);
    put_bytes(room, r, value)
}

// ---- texts in a row, each the value of an option: the first with a delta, the others with 0

// How long the options are.
pub fn row_length(s: &[u8], row: Row, delta: usize) -> usize
    requires row_at { RowAt s.now row.at row.count × AllSmall (contents s.now row.at row.count) }
    requires link_size { (length s.now ≤ limits.bytes) × Small delta }
    ensures { result ≡ length (coded delta (contents s.now row.at row.count)) }
{
    let mut difference = delta;
    let mut total = 0;
    for text in texts_at(s, row) {
        total += option_length(difference, text.len());
        difference = 0;
    }
    total
}

// The options.
pub fn put_row(room: &mut [u8], at: usize, s: &[u8], row: Row, delta: usize) -> usize
    requires row_at { RowAt s.now row.at row.count × AllSmall (contents s.now row.at row.count) }
    requires small { Small delta }
    requires count_in_bounds { at + length (coded delta (contents s.now row.at row.count)) ≤ length room.old }
    ensures { Wrote room.old at (coded delta (contents s.now row.at row.count)) room.new result }
{
    let mut difference = delta;
    let mut o = at;
    for text in texts_at(s, row) {
        o = put_option(room, o, difference, text);
        difference = 0;
    }
    o
}
