// The values of the options of a request: made of what stands in an accepted input, or told by where they stand in it.
#![tactic(auto)]

ghost use Rattle.std.specs.Prelude.{◌+◌, ◌≤◌, ◌<◌, ◌≡◌, length, IfSome};
ghost use Rattle.rules.specs.Bytes.{Bytes, dot, join};
ghost use Rattle.rules.specs.Model.{elements, normal_path};
ghost use Rattle.rules.specs.Options.{port_bytes};
ghost use Rattle.rules.specs.Reader.{contents};
ghost use Rattle.rules.specs.Meaning.{said_texts, said_host};
ghost use Rattle.rules.specs.Standing.{RowAt};
ghost use Rattle.put.specs.Wrote.{Wrote};
ghost use Rattle.reader.specs.Answers.{slot_of, host_of};
ghost use Rattle.coap_values.specs.Values.{host_value, port_value, value_in, value_is, Inside, SmallValue, Valued, RowOf, HostAsks, TextsAsk};

use addresses::put_address;
use cbor::span_at;
use cbor_rows::{Row, texts_at};
use put::{put_big_endian, put_byte, put_bytes};
use reader::HostAt;
use same_bytes::same;

// ---- a value that is made

// The value that was made in the room, which has this length.
pub fn value_in(room: &[u8], made: Option<usize>) -> Option<&[u8]>
    requires inside { Inside room.now made }
    requires is_small { IfSome made (λ n. n ≤ 255) }
    ensures value { value_is result ≡ value_in room.now made }
    ensures small { SmallValue result }
{
    match made {
        Some(n) => Some(&room[..n]),
        None => None,
    }
}

// ---- Uri-Host

// The labels joined by ".", from the start of the room on.
fn put_labels(room: &mut [u8], s: &[u8], row: Row) -> usize
    requires row_at { RowAt s.now row.at row.count }
    requires count_in_bounds { length (join dot (contents s.now row.at row.count)) ≤ length room.old }
    ensures { Wrote room.old 0 (join dot (contents s.now row.at row.count)) room.new result }
{
    let mut labels = texts_at(s, row);
    let Some(first) = labels.next() else {
        return 0;
    };
    let mut o = put_bytes(room, 0, first);
    for label in labels {
        let p = put_byte(room, o, b'.');
        o = put_bytes(room, p, label);
    }
    o
}

// The length of Uri-Host's value, which is made in the room: the joined labels, or the text of an address that is not the destination's.
pub fn host_value(room: &mut [u8], s: &[u8], host: HostAt, to_address: &[u8]) -> Option<usize>
    requires host_asks { HostAsks s.now (host_of host) }
    requires in_bounds { 255 ≤ length room.old }
    ensures { Valued room.new result (host_value (said_host s.now (host_of host)) to_address.now) }
{
    match host {
        HostAt::Address(span) => {
            let address = span.of(s);
            if same(address, to_address) {
                return None;
            }
            Some(put_address(room, 0, address))
        }
        HostAt::Labels(row) => Some(put_labels(room, s, row)),
    }
}

// ---- Uri-Port

// How many bytes a port has without leading zeros.
#[tactic(auto, using(crate::proofs::Values::port_width_zero, crate::proofs::Values::port_width_one, crate::proofs::Values::port_width_two))]
fn port_width(p: u64) -> usize
    ensures { result ≡ length (port_bytes p) }
{
    match p {
        0 => 0,
        1..256 => 1,
        _ => 2,
    }
}

// The length of Uri-Port's value, which is made in the room: a port that is not the destination's.
pub fn port_value(room: &mut [u8], port: u64, to_port: u64) -> Option<usize>
    requires port_bound { port ≤ 65535 }
    requires in_bounds { 2 ≤ length room.old }
    ensures { Valued room.new result (port_value port to_port) }
{
    if port == to_port {
        return None;
    }
    Some(put_big_endian(room, 0, port_width(port), port))
}

// ---- Uri-Path and Uri-Query

const NO_TEXTS: Row = Row { at: 0, count: 0 };

// The segments; none for a path of one empty segment.
pub fn segments(s: &[u8], path: Option<Row>) -> Row
    requires { TextsAsk s.now (slot_of path) }
    ensures { RowOf s.now result.at result.count (normal_path (elements (said_texts s.now (slot_of path)))) }
{
    let row = path.unwrap_or(NO_TEXTS);
    if row.count == 1 && span_at(s, row.at).length == 0 {
        return NO_TEXTS;
    }
    row
}

// The parameters.
pub fn parameters(query: Option<Row>) -> Row
    ensures { (bs : Bytes) → TextsAsk bs (slot_of query) → RowOf bs result.at result.count (elements (said_texts bs (slot_of query))) }
{
    query.unwrap_or(NO_TEXTS)
}
