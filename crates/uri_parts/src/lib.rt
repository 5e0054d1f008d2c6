// The parts of a URI text, each measured and written from where it stands in an input that was accepted.
#![tactic(auto)]

ghost use Rattle.std.specs.Prelude.{◌+◌, ◌≤◌, ◌≡◌, length};
ghost use Rattle.rules.specs.Bytes.{Bytes};
ghost use Rattle.rules.specs.Model.{limits};
ghost use Rattle.rules.specs.Meaning.{said_texts, said_text, said_host, said_scheme};
ghost use Rattle.rules.specs.Valid.{GoodPort};
ghost use Rattle.rules.specs.Standing.{SchemeStands, TextStands};
ghost use Rattle.put.specs.Wrote.{Wrote};
ghost use Rattle.reader.specs.Answers.{slot_of, text_of, host_of, port_of, scheme_of};
ghost use Rattle.uri_parts.specs.Pieces.{scheme_piece, host_piece, port_piece, path_piece, query_piece, fragment_piece, HostPrints, TextsPrint, Short};

use addresses::{address_length, put_address};
use cbor::Span;
use cbor_rows::Row;
use numeral::{decimal_length, put_decimal};
use put::{put_byte, put_bytes};
use reader::{HostAt, Scheme};
use schemes::{name_length, put_name};
use uri_escape::{Class, escaped_length, put_escaped};
use uri_rows::{put_row, row_length};

// ---- scheme

// How long a scheme is, by its number or as its text.
pub fn scheme_length(scheme: Option<Scheme>) -> usize
    ensures { (bs : Bytes) → SchemeStands bs (scheme_of scheme) → result ≡ length (scheme_piece (said_scheme bs (scheme_of scheme))) }
{
    match scheme {
        None => 0,
        Some(scheme) => match scheme {
            Scheme::Number(n) => name_length(n),
            Scheme::Name(span) => span.length,
        },
    }
}

// A scheme: the name of its number, or its text.
pub fn put_scheme(room: &mut [u8], at: usize, s: &[u8], scheme: Option<Scheme>) -> usize
    requires scheme_stands { SchemeStands s.now (scheme_of scheme) }
    requires scheme_in_bounds { at + length (scheme_piece (said_scheme s.now (scheme_of scheme))) ≤ length room.old }
    ensures { Wrote room.old at (scheme_piece (said_scheme s.now (scheme_of scheme))) room.new result }
{
    match scheme {
        None => at,
        Some(scheme) => match scheme {
            Scheme::Number(n) => put_name(room, at, n),
            Scheme::Name(span) => put_bytes(room, at, span.of(s)),
        },
    }
}

// ---- authority; the "/" before the host is the last of "://"

// How long a "/" and a host are.
pub fn host_length(s: &[u8], host: HostAt) -> usize
    requires link_size { length s.now ≤ limits.bytes }
    requires host_prints { HostPrints s.now (host_of host) }
    requires short { Short (host_piece (said_host s.now (host_of host))) }
    ensures { result ≡ length (host_piece (said_host s.now (host_of host))) }
{
    match host {
        HostAt::Address(span) => 1 + address_length(span.of(s)),
        HostAt::Labels(row) => row_length(s, row, Class::Label),
    }
}

// A "/" and a host: an address, or labels joined by ".".
pub fn put_host(room: &mut [u8], at: usize, s: &[u8], host: HostAt) -> usize
    requires host_prints { HostPrints s.now (host_of host) }
    requires host_in_bounds { at + length (host_piece (said_host s.now (host_of host))) ≤ length room.old }
    ensures { Wrote room.old at (host_piece (said_host s.now (host_of host))) room.new result }
{
    match host {
        HostAt::Address(span) => {
            let p = put_byte(room, at, b'/');
            put_address(room, p, span.of(s))
        }
        HostAt::Labels(row) => put_row(room, at, s, row, Class::Label, b'/', b'.'),
    }
}

// How long a ":" and a port are, if there is one.
pub fn port_length(port: Option<u64>) -> usize
    requires good_port { GoodPort (port_of port) }
    requires short { Short (port_piece (port_of port)) }
    ensures { result ≡ length (port_piece (port_of port)) }
{
    match port {
        None => 0,
        Some(p) => 1 + decimal_length(p as u16),
    }
}

// A ":" and a port in decimal, if there is one.
pub fn put_port(room: &mut [u8], at: usize, port: Option<u64>) -> usize
    requires good_port { GoodPort (port_of port) }
    requires port_in_bounds { at + length (port_piece (port_of port)) ≤ length room.old }
    ensures { Wrote room.old at (port_piece (port_of port)) room.new result }
{
    match port {
        None => at,
        Some(p) => {
            let q = put_byte(room, at, b':');
            put_decimal(room, q, p as u16)
        }
    }
}

// ---- path, query, fragment

// How long a "/" and a path are.
pub fn path_length(s: &[u8], path: Option<Row>) -> usize
    requires link_size { length s.now ≤ limits.bytes }
    requires texts_print { TextsPrint s.now (slot_of path) }
    ensures { result ≡ length (path_piece (said_texts s.now (slot_of path))) }
{
    match path {
        None => 1,
        Some(row) => row_length(s, row, Class::Segment),
    }
}

// A "/" and the segments joined by "/", if there are any.
pub fn put_path(room: &mut [u8], at: usize, s: &[u8], path: Option<Row>) -> usize
    requires texts_print { TextsPrint s.now (slot_of path) }
    requires path_in_bounds { at + length (path_piece (said_texts s.now (slot_of path))) ≤ length room.old }
    ensures { Wrote room.old at (path_piece (said_texts s.now (slot_of path))) room.new result }
{
    match path {
        None => put_byte(room, at, b'/'),
        Some(row) => put_row(room, at, s, row, Class::Segment, b'/', b'/'),
    }
}

// How long a "?" and a query are, if one is set.
pub fn query_length(s: &[u8], query: Option<Row>) -> usize
    requires link_size { length s.now ≤ limits.bytes }
    requires texts_print { TextsPrint s.now (slot_of query) }
    ensures { result ≡ length (query_piece (said_texts s.now (slot_of query))) }
{
    match query {
        None => 0,
        Some(row) => row_length(s, row, Class::Parameter),
    }
}

// A "?" and the parameters joined by "&", if a query is set.
pub fn put_query(room: &mut [u8], at: usize, s: &[u8], query: Option<Row>) -> usize
    requires texts_print { TextsPrint s.now (slot_of query) }
    requires query_in_bounds { at + length (query_piece (said_texts s.now (slot_of query))) ≤ length room.old }
    ensures { Wrote room.old at (query_piece (said_texts s.now (slot_of query))) room.new result }
{
    match query {
        None => at,
        Some(row) => put_row(room, at, s, row, Class::Parameter, b'?', b'&'),
    }
}

// How long a "#" and a fragment are, if one is set.
pub fn fragment_length(s: &[u8], fragment: Option<Span>) -> usize
    requires link_size { length s.now ≤ limits.bytes }
    requires text_stands { TextStands s.now (text_of fragment) }
    requires short { Short (fragment_piece (said_text s.now (text_of fragment))) }
    ensures { result ≡ length (fragment_piece (said_text s.now (text_of fragment))) }
{
    match fragment {
        None => 0,
        Some(span) => 1 + escaped_length(span.of(s), Class::Fragment),
    }
}

// A "#" and a fragment, if one is set.
pub fn put_fragment(room: &mut [u8], at: usize, s: &[u8], fragment: Option<Span>) -> usize
    requires text_stands { TextStands s.now (text_of fragment) }
    requires fragment_in_bounds { at + length (fragment_piece (said_text s.now (text_of fragment))) ≤ length room.old }
    ensures { Wrote room.old at (fragment_piece (said_text s.now (text_of fragment))) room.new result }
{
    match fragment {
        None => at,
        Some(span) => {
            let p = put_byte(room, at, b'#');
            put_escaped(room, p, span.of(s), Class::Fragment)
        }
    }
}
