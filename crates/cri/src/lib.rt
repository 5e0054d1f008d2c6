// The library's calls. Each takes any bytes, and answers for all of them what its `ensures` says; the definitions named there are in
// crates/rules/specs, how components are laid out in crates/components/specs, what a part of a slice is in crates/segment_view/specs.
#![tactic(auto)]

ghost use Rattle.std.specs.Prelude.{◌≡◌, length};
ghost use Rattle.rules.specs.Calls.{outcome, after, read_call, write_call, resolve_call, text_call, options_call};
ghost use Rattle.rules.specs.Model.{limits};
ghost use Rattle.refusals.specs.Answers.{answer_is};
ghost use Rattle.components.specs.Content.{components_of};
ghost use Rattle.components.specs.Layout.{reading_laid, spans_after};
ghost use Rattle.outcomes.specs.Answers.{outcome_is};

pub use cbor::Span;
pub use components::{Authority, Components, Host, Opening, Scheme, Spans};
pub use outcomes::Outcome;

// Why and where something is refused; crates/refusals says when each reason is given, and `reason.number()` is its number.
pub use refusals::{Reason, Refusal};

// The largest input; rooms that are long enough for the text and for the options of every link; the numbers of Spans.
pub use numbers::{BYTES, OPTIONS_ROOM, SPANS, TEXT_ROOM};

// Of what `read` reports and `write` takes, with their contracts in crates/components: how many labels, segments or parameters there are, and where
// one of them stands.
pub use components::{label_count, text_count, text_span};

// The views, whose contracts stand in crates/segment_view and crates/authority_view. `segment` and `authority` give a part of a lent
// slice; `segment_verdict` and `authority_verdict` of the same arguments tell whether it is given, or the refusal.
pub use authority_view::{authority, authority_verdict};
pub use segment_view::{segment, segment_verdict};

// The place of a refusal from 1 to 7 is the first byte of the item at fault; that of 8 is the place inside the base, or 0 where the base or the
// link was read and is not absolute; every other refusal has the place 0, and so has every refusal of `write`.

// Reads a CRI reference: its components; or a refusal from 1 to 7, and no components. Texts and addresses are given by where they stand in the
// link. Those of labels, segments and parameters go into `spans`, one after the other, start and length of each; past them, and after a
// refusal, `spans` is as it was.
pub fn read(link: &[u8], spans: &mut Spans) -> Result<Components, Refusal>
    ensures value { answer_is (λ c. c) result ≡ reading_laid (read_call limits link.now) }
    ensures spans_after { spans.new ≡ spans_after (read_call limits link.now) spans.old }
{
    components::read(link, spans)
}

// Writes a CRI reference from components, whose texts and addresses stand in `lent`, those of labels, segments and parameters where `spans`
// tells, into the room: the length written. Or it refuses, and the room is as it was: 4 where a count is over its size or a span lies
// outside `lent`; the number from 1 to 7 that `read` has for the encoding; 10 where the room is shorter than the encoding.
pub fn write(components: Components, spans: &Spans, lent: &[u8], room: &mut [u8]) -> Outcome
    ensures result_value { outcome_is result ≡ outcome (write_call limits (components_of spans.now components) lent.now) (length room.old) }
    ensures room_after { room.new ≡ after (write_call limits (components_of spans.now components) lent.now) room.old }
{
    writer::write(components, spans, lent, room)
}

// Resolves a reference against a base, and writes the resolved CRI into the room: the length written. Or it refuses,
// and the room is as it was: 8 where the base is refused or not absolute; the number from 1 to 7 that `read` has for the reference;
// 9 where the result has more segments or bytes than a link may have; 10 where the room is shorter than the result.
pub fn resolve(base: &[u8], reference: &[u8], room: &mut [u8]) -> Outcome
    ensures result_value { outcome_is result ≡ outcome (resolve_call limits base.now reference.now) (length room.old) }
    ensures room_after { room.new ≡ after (resolve_call limits base.now reference.now) room.old }
{
    resolver::resolve(base, reference, room)
}

// Writes the URI text of an absolute CRI into the room: the length written. Or it refuses, and the room is as it
// was: the number from 1 to 7 that `read` has for the link; 8 where the link is not absolute; 10 where the room is shorter than the text.
// For a link of n bytes a room of 3n + 13 is long enough.
pub fn uri_text(link: &[u8], room: &mut [u8]) -> Outcome
    ensures result_value { outcome_is result ≡ outcome (text_call limits link.now) (length room.old) }
    ensures room_after { room.new ≡ after (text_call limits link.now) room.old }
{
    uri::uri_text(link, room)
}

// Writes the CoAP options of a request for an absolute CRI into the room, given the address and the port that the request is sent to: the
// length written. Or it refuses, and the room is as it was: 12 where the address has not 4 or 16 bytes; the number from
// 1 to 7 that `read` has for the link; 8 where the link is not absolute; 11 where its scheme is a text or a fragment is set; 10 where the
// room is shorter than the options. For a link of n bytes a room of 2n + 16 is long enough.
pub fn options(link: &[u8], address: &[u8], port: u16, room: &mut [u8]) -> Outcome
    ensures result_value { outcome_is result ≡ outcome (options_call limits link.now address.now port) (length room.old) }
    ensures room_after { room.new ≡ after (options_call limits link.now address.now port) room.old }
{
    coap_options::options(link, address, port, room)
}
