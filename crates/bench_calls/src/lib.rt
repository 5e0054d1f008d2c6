// The library's calls, as the measuring program of bench/ makes them.
#![tactic(auto)]

ghost use Rattle.std.specs.Prelude.{◌≡◌, length};
ghost use Rattle.rules.specs.Model.{limits};
ghost use Rattle.rules.specs.Calls.{length_of, outcome, after, read_call, resolve_call, text_call, options_call};
ghost use Rattle.components.specs.Layout.{spans_after};
ghost use Rattle.refusals.specs.Answers.{number_of};
ghost use Rattle.outcomes.specs.Answers.{outcome_is};
ghost use Rattle.bench_calls.specs.Packed.{packed_refusal, packed, packed_read, segment_count};
ghost use Rattle.round_trip.specs.Again.{again};

use cri::{Outcome, Refusal, Spans};

// What a refusal is as one number: its own, and 256 times its place.
fn refusal_packed(refusal: Refusal) -> u64
    ensures { result ≡ packed_refusal (number_of refusal.reason) refusal.place }
{
    u64::from(refusal.reason.number()) + 256 * ((refusal.place % 65536) as u64)
}

// Of a done call 256 times the length written; or the refusal.
fn outcome_packed(outcome: Outcome) -> u64
    ensures { result ≡ packed (outcome_is outcome) }
{
    match outcome {
        Ok(n) => 256 * ((n % 65536) as u64),
        Err(refusal) => refusal_packed(refusal),
    }
}

// 0, or the refusal; its components are made too.
#[unsafe(no_mangle)]
pub extern "C" fn bench_read(s: &[u8], spans: &mut Spans) -> u64
    ensures value { result ≡ packed_read (read_call limits s.now) }
    ensures spans_after { spans.new ≡ spans_after (read_call limits s.now) spans.old }
{
    match cri::read(s, spans) {
        Ok(_) => 0,
        Err(refusal) => refusal_packed(refusal),
    }
}

// How many segments its path has: none where it is refused.
#[unsafe(no_mangle)]
pub extern "C" fn bench_segments(s: &[u8], spans: &mut Spans) -> usize
    ensures value { result ≡ segment_count (read_call limits s.now) }
    ensures spans_after { spans.new ≡ spans_after (read_call limits s.now) spans.old }
{
    match cri::read(s, spans) {
        Ok(components) => components::text_count(components.path),
        Err(_) => 0,
    }
}

// A link read, and written again into the room: the length written.
#[unsafe(no_mangle)]
pub extern "C" fn bench_rewrite(s: &[u8], spans: &mut Spans, room: &mut [u8]) -> usize
    ensures value { result ≡ length_of (outcome (again limits s.now) (length room.old)) }
    ensures room_after { room.new ≡ after (again limits s.now) room.old }
    ensures spans_after { spans.new ≡ spans_after (read_call limits s.now) spans.old }
{
    outcomes::written(round_trip::rewrite(s, spans, room))
}

// A reference resolved against a base into the room.
#[unsafe(no_mangle)]
pub extern "C" fn bench_resolve(base: &[u8], reference: &[u8], room: &mut [u8]) -> u64
    ensures value { result ≡ packed (outcome (resolve_call limits base.now reference.now) (length room.old)) }
    ensures room_after { room.new ≡ after (resolve_call limits base.now reference.now) room.old }
{
    outcome_packed(cri::resolve(base, reference, room))
}

// The URI text of a link, written into the room.
#[unsafe(no_mangle)]
pub extern "C" fn bench_text(s: &[u8], room: &mut [u8]) -> u64
    ensures value { result ≡ packed (outcome (text_call limits s.now) (length room.old)) }
    ensures room_after { room.new ≡ after (text_call limits s.now) room.old }
{
    outcome_packed(cri::uri_text(s, room))
}

// The options of a request for a link, sent to this address and port, written into the room.
#[unsafe(no_mangle)]
pub extern "C" fn bench_options(s: &[u8], address: &[u8], port: u16, room: &mut [u8]) -> u64
    ensures value { result ≡ packed (outcome (options_call limits s.now address.now port) (length room.old)) }
    ensures room_after { room.new ≡ after (options_call limits s.now address.now port) room.old }
{
    outcome_packed(cri::options(s, address, port, room))
}
