// The URI text of an absolute CRI: read, measured where the room is short, and written part by part.
#![tactic(auto)]

ghost use Rattle.std.specs.Prelude.{◌+◌, ◌≤◌, ◌≡◌, length, leb};
ghost use Rattle.rules.specs.Model.{limits};
ghost use Rattle.rules.specs.Meaning.{said_opening};
ghost use Rattle.rules.specs.Result.{ok};
ghost use Rattle.rules.specs.Calls.{outcome, after, text_call};
ghost use Rattle.put.specs.Wrote.{Wrote};
ghost use Rattle.reader.specs.Answers.{opening_of, found_of};
ghost use Rattle.outcomes.specs.Answers.{outcome_is};
ghost use Rattle.uri_parts.specs.Pieces.{Short};
ghost use Rattle.uri.specs.Printed.{origin_piece, text_at, OpeningPrints, Prints};

use outcomes::Outcome;
use put::put_bytes;
use reader::{Found, OpeningAt};
use refusals::refuse;
use uri_parts::{
    fragment_length, host_length, path_length, port_length, put_fragment, put_host, put_path,
    put_port, put_query, put_scheme, query_length, scheme_length,
};

// ---- scheme and authority

// How long scheme, "://", host and port are.
fn origin_length(s: &[u8], opening: OpeningAt) -> usize
    requires link_size { length s.now ≤ limits.bytes }
    requires opening_prints { OpeningPrints s.now (opening_of opening) }
    requires short { Short (origin_piece (said_opening s.now (opening_of opening))) }
    ensures { result ≡ length (origin_piece (said_opening s.now (opening_of opening))) }
{
    match opening {
        OpeningAt::Discard(_) => 0,
        OpeningAt::DiscardAll => 0,
        OpeningAt::Full(scheme, authority) => {
            scheme_length(scheme) + 2 + host_length(s, authority.host) + port_length(authority.port)
        }
    }
}

// Scheme, "://", host and port. The last "/" comes with the host.
fn put_origin(room: &mut [u8], at: usize, s: &[u8], opening: OpeningAt) -> usize
    requires opening_prints { OpeningPrints s.now (opening_of opening) }
    requires opening_in_bounds { at + length (origin_piece (said_opening s.now (opening_of opening))) ≤ length room.old }
    ensures { Wrote room.old at (origin_piece (said_opening s.now (opening_of opening))) room.new result }
{
    match opening {
        OpeningAt::Discard(_) => at,
        OpeningAt::DiscardAll => at,
        OpeningAt::Full(scheme, authority) => {
            let p = put_scheme(room, at, s, scheme);
            let q = put_bytes(room, p, b":/");
            let r = put_host(room, q, s, authority.host);
            put_port(room, r, authority.port)
        }
    }
}

// ---- the whole

// How long the text is.
fn text_length(s: &[u8], found: Found) -> usize
    requires prints { Prints s.now (found_of found) }
    ensures { result ≡ length (text_at s.now (found_of found)) }
{
    origin_length(s, found.opening)
        + path_length(s, found.path)
        + query_length(s, found.query)
        + fragment_length(s, found.fragment)
}

// The text, from the start of the room on.
fn put_text(room: &mut [u8], s: &[u8], found: Found) -> usize
    requires prints { Prints s.now (found_of found) }
    requires found_in_bounds { length (text_at s.now (found_of found)) ≤ length room.old }
    ensures { Wrote room.old 0 (text_at s.now (found_of found)) room.new result }
{
    let a = put_origin(room, 0, s, found.opening);
    let b = put_path(room, a, s, found.path);
    let c = put_query(room, b, s, found.query);
    put_fragment(room, c, s, found.fragment)
}

// Whether the text has at most `size` bytes. None has more than 3n + 13, so it is measured only for less room than that.
fn has_room(s: &[u8], found: Found, size: usize) -> bool
    requires prints { Prints s.now (found_of found) }
    ensures { result ≡ leb (length (text_at s.now (found_of found))) size }
{
    if 3 * s.len() + 13 <= size {
        return true;
    }
    text_length(s, found) <= size
}

// The text of an absolute reference; 10 where the room is shorter.
fn print(s: &[u8], found: Found, room: &mut [u8]) -> Outcome
    requires prints { Prints s.now (found_of found) }
    ensures result_value { outcome_is result ≡ outcome (ok (text_at s.now (found_of found))) (length room.old) }
    ensures room_after { room.new ≡ after (ok (text_at s.now (found_of found))) room.old }
{
    if !has_room(s, found, room.len()) {
        refuse!(Room, 0);
    }
    Ok(put_text(room, s, found))
}

// The answer, and the URI text in the room.
pub fn uri_text(s: &[u8], room: &mut [u8]) -> Outcome
    ensures result_value { outcome_is result ≡ outcome (text_call limits s.now) (length room.old) }
    ensures room_after { room.new ≡ after (text_call limits s.now) room.old }
{
    let found = reader::read(s)?;
    if !absolutes::is_absolute(found.opening) {
        refuse!(Base, 0);
    }
    print(s, found, room)
}
