// The CoAP options of a request for a CRI: read, judged, measured and written.
#![tactic(auto)]

ghost use Rattle.std.specs.Prelude.{◌+◌, ◌≤◌, ◌≡◌, is_some, length, ltb};
ghost use Rattle.rules.specs.Model.{limits};
ghost use Rattle.rules.specs.Result.{ok};
ghost use Rattle.rules.specs.Calls.{outcome, after, options_call};
ghost use Rattle.put.specs.Wrote.{Wrote};
ghost use Rattle.reader.specs.Answers.{slot_of, host_of, authority_of, opening_of, found_of};
ghost use Rattle.outcomes.specs.Answers.{outcome_is};
ghost use Rattle.coap_coding.specs.Coded.{Small};
ghost use Rattle.coap_values.specs.Values.{HostAsks, TextsAsk, value_is, SmallValue};
ghost use Rattle.coap_options.specs.Requests.{options_at, number_answer, opening_answer, AuthorityAsks, Asks, value_coded, number_after, DeltasAre, pieces_at, Stands, DeltasSmall};

use cbor_rows::Row;
use coap_coding::{option_length, put_option, put_row, row_length};
use coap_values::{host_value, parameters, port_value, segments, value_in};
use numbers::NAME_BYTES;
use outcomes::Outcome;
use reader::{AuthorityAt, Found, HostAt, OpeningAt, Scheme};
use refusals::refuse;

// ---- which options there are

// What a request says: the values of Uri-Host and Uri-Port, and where the segments and the parameters stand.
#[derive(Clone, Copy)]
pub struct Request<'a> {
    pub host: Option<&'a [u8]>,
    pub port: Option<&'a [u8]>,
    pub path: Row,
    pub query: Row,
}

// The difference of each option's number from the one before.
#[derive(Clone, Copy)]
pub struct Deltas {
    pub port: usize,
    pub path: usize,
    pub query: usize,
}

// The number of the last option: this one, if there is an option of it, else the one before.
fn number_after(before: usize, number: usize, any: bool) -> usize
    ensures { result ≡ number_after before number any }
{
    if any {
        return number;
    }
    before
}

// The differences, by which options there are.
fn deltas_of(request: Request) -> Deltas
    ensures { DeltasAre (is_some request.entry.host) (is_some request.entry.port) (ltb 0 request.entry.path.count) result }
{
    let host = request.host;
    let port = request.port;
    let path = request.path;
    let a = number_after(0, 3, host.is_some());
    let b = number_after(a, 7, port.is_some());
    let c = number_after(b, 11, 0 < path.count);
    Deltas {
        port: 7 - a,
        path: 11 - b,
        query: 15 - c,
    }
}

// ---- all options

// How long an option is, if it is set.
fn value_length(delta: usize, value: Option<&[u8]>) -> usize
    requires { Small delta × SmallValue value }
    ensures { result ≡ length (value_coded delta (value_is value.entry)) }
{
    match value {
        None => 0,
        Some(v) => option_length(delta, v.len()),
    }
}

// An option, if it is set.
fn put_value(room: &mut [u8], at: usize, delta: usize, value: Option<&[u8]>) -> usize
    requires small { Small delta × SmallValue value }
    requires value_in_bounds { at + length (value_coded delta (value_is value)) ≤ length room.old }
    ensures { Wrote room.old at (value_coded delta (value_is value.entry)) room.new result }
{
    match value {
        None => at,
        Some(v) => put_option(room, at, delta, v),
    }
}

// How long all options are.
fn options_length(s: &[u8], request: Request, deltas: Deltas) -> usize
    requires link_size { length s.now ≤ limits.bytes }
    requires stands { Stands s.now request × DeltasSmall deltas }
    ensures { result ≡ length (pieces_at s.now request.entry deltas) }
{
    let host = request.host;
    let port = request.port;
    let path = request.path;
    let query = request.query;
    value_length(3, host)
        + value_length(deltas.port, port)
        + row_length(s, path, deltas.path)
        + row_length(s, query, deltas.query)
}

// All options, from the start of the room on.
fn put_options(room: &mut [u8], s: &[u8], request: Request, deltas: Deltas) -> usize
    requires stands { Stands s.now request × DeltasSmall deltas }
    requires deltas_in_bounds { length (pieces_at s.now request deltas) ≤ length room.old }
    ensures { Wrote room.old 0 (pieces_at s.now request.entry deltas) room.new result }
{
    let host = request.host;
    let port = request.port;
    let path = request.path;
    let query = request.query;
    let a = put_value(room, 0, 3, host);
    let b = put_value(room, a, deltas.port, port);
    let c = put_row(room, b, s, path, deltas.path);
    put_row(room, c, s, query, deltas.query)
}

// ---- the call

// The options of a request that has this host, port, path and query; 10 where the room is shorter.
fn requested(
    s: &[u8],
    host: HostAt,
    port: u64,
    path: Option<Row>,
    query: Option<Row>,
    to_address: &[u8],
    to_port: u64,
    room: &mut [u8],
) -> Outcome
    requires link_size { length s.now ≤ limits.bytes }
    requires host_asks { HostAsks s.now (host_of host) × (port ≤ 65535) }
    requires texts_ask { TextsAsk s.now (slot_of path) × TextsAsk s.now (slot_of query) }
    ensures result_value { outcome_is result ≡ outcome (ok (options_at s.now (host_of host) port (slot_of path) (slot_of query) to_address.now to_port)) (length room.old) }
    ensures room_after { room.new ≡ after (ok (options_at s.now (host_of host) port (slot_of path) (slot_of query) to_address.now to_port)) room.old }
{
    let mut host_room = [0u8; NAME_BYTES];
    let mut port_room = [0u8; 2];
    let host_length = host_value(&mut host_room, s, host, to_address);
    let port_length = port_value(&mut port_room, port, to_port);
    let request = Request {
        host: value_in(&host_room, host_length),
        port: value_in(&port_room, port_length),
        path: segments(s, path),
        query: parameters(query),
    };
    let deltas = deltas_of(request);
    if room.len() < options_length(s, request, deltas) {
        refuse!(Room, 0);
    }
    Ok(put_options(room, s, request, deltas))
}

// The options of an accepted CRI whose scheme is a number: 11 where that has no default port, or where a fragment is set.
fn options_of_number(
    s: &[u8],
    n: u64,
    authority: AuthorityAt,
    found: Found,
    to_address: &[u8],
    to_port: u64,
    room: &mut [u8],
) -> Outcome
    requires asks { Asks s.now (found_of found) }
    requires authority_asks { AuthorityAsks s.now (authority_of authority) }
    ensures result_value { outcome_is result ≡ outcome (number_answer s.now n (authority_of authority) (found_of found) to_address.now to_port) (length room.old) }
    ensures room_after { room.new ≡ after (number_answer s.now n (authority_of authority) (found_of found) to_address.now to_port) room.old }
{
    let Some(default) = schemes::default_port(n) else {
        refuse!(Coap, 0);
    };
    if found.fragment.is_some() {
        refuse!(Coap, 0);
    }
    requested(
        s,
        authority.host,
        authority.port.unwrap_or(default),
        found.path,
        found.query,
        to_address,
        to_port,
        room,
    )
}

// The options of an accepted reference: 8 where it is not absolute, 11 where its scheme is a text.
fn options_of_found(
    s: &[u8],
    found: Found,
    to_address: &[u8],
    to_port: u64,
    room: &mut [u8],
) -> Outcome
    requires { Asks s.now (found_of found) }
    ensures result_value { outcome_is result ≡ outcome (opening_answer s.now (opening_of found.opening) (found_of found) to_address.now to_port) (length room.old) }
    ensures room_after { room.new ≡ after (opening_answer s.now (opening_of found.opening) (found_of found) to_address.now to_port) room.old }
{
    let OpeningAt::Full(scheme, authority) = found.opening else {
        refuse!(Base, 0);
    };
    match scheme {
        None => refuse!(Base, 0),
        Some(Scheme::Number(n)) => {
            options_of_number(s, n, authority, found, to_address, to_port, room)
        }
        Some(Scheme::Name(_)) => refuse!(Coap, 0),
    }
}

// The answer, and the options in the room.
pub fn options(s: &[u8], address: &[u8], port: u16, room: &mut [u8]) -> Outcome
    ensures result_value { outcome_is result ≡ outcome (options_call limits s.now address.now port) (length room.old) }
    ensures room_after { room.new ≡ after (options_call limits s.now address.now port) room.old }
{
    if !reader::is_address_length(address.len() as u64) {
        refuse!(Dest, 0);
    }
    let found = reader::read(s)?;
    options_of_found(s, found, address, port as u64, room)
}
