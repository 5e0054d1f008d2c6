// Writing a CRI reference from components. The encoding is made in an array of its own, judged by the reader, and then copied into the lent room.
#![tactic(auto)]

ghost use Rattle.std.specs.Prelude.{ℕ, ◌+◌, ◌*◌, ◌≤◌, ◌≡◌, true, List, [], map, length, drop, take};
ghost use Rattle.std.proofs.Math.Option;
ghost use Rattle.rules.specs.Bytes.{Bytes, all, concat};
ghost use Rattle.rules.specs.Head.{head_bytes};
ghost use Rattle.rules.specs.Model.{map_scheme, map_host, map_authority, map_opening, elements, limits, most_labels};
ghost use Rattle.rules.specs.Reader.{taken};
ghost use Rattle.rules.specs.Encode.{texts_item, null_item, or_null, tail_items, port_items, host_items, authority_item, scheme_item, encode};
ghost use Rattle.rules.specs.Writing.{scheme_texts, host_texts, where_set, opening_texts, all_texts, counted, inside};
ghost use Rattle.rules.specs.Calls.{outcome, after, write_call};
ghost use Rattle.refusals.specs.Answers.{answer_is};
ghost use Rattle.cbor.specs.Heads.{kind_is, span_is};
ghost use Rattle.reader.specs.Answers.{port_of};
ghost use Rattle.outcomes.specs.Answers.{outcome_is};
ghost use Rattle.components.specs.Content.{spans_of, scheme_of, host_of, authority_of, opening_of, texts_of, fragment_of, labels_in, host_count, label_count, text_count, components_of};
ghost use Rattle.writer.specs.Added.{added};
ghost use Rattle.writer.specs.AddedItems.{one_text, tail_texts, said_by, tail_of, string_item, text_items, authority_items, discard_items, opening_items, fragment_items};

use cbor::{Kind, Span};
use components::{Authority, Components, Host, Opening, Scheme, Spans, label_count, text_count};
use numbers::{BYTES, LABELS, PARAMETERS, SEGMENTS};
use outcomes::Outcome;
use put::put_bytes;
use refusals::{Refusal, refuse};
use schemes::{scheme_id, scheme_number};
use std::marker::Model;

// ---- counts of items

#[tactic(auto, unfolding(rules::specs::Encode::port_items))]
fn port_items(port: Option<u64>) -> u64
    ensures { result ≡ length (port_items (port_of port)) }
{
    match port {
        None => 0,
        Some(_) => 1,
    }
}

// How many items a host has: an address, or each label.
#[tactic(auto, using(crate::proofs::AddedItems::labels_many), unfolding(rules::specs::Encode::host_items))]
fn host_items(host: Host) -> u64
    ensures { (lent : Bytes) (xs : List ℕ) → result ≡ length (host_items (map_host (taken lent) (host_of xs host))) }
{
    match host {
        Host::Address(_) => 1,
        Host::Labels(n) => n as u64,
    }
}

#[tactic(auto, using(crate::proofs::AddedItems::null_authority, crate::proofs::AddedItems::no_authority_lem), unfolding(crate::specs::AddedItems::authority_items))]
fn authority_items(authority: Option<Authority>, further: u64) -> u64
    ensures { (lent : Bytes) (xs : List ℕ) → result ≡ length (authority_items (Option.map (map_authority (taken lent)) (authority_of xs authority)) further) }
{
    match authority {
        None => if further == 0 { 0 } else { 1 },
        Some(_) => 1,
    }
}

// How many items a discard is before `further` items: 0 alone is left off.
#[tactic(auto, using(crate::proofs::AddedItems::discard_further, crate::proofs::AddedItems::discard_some, crate::proofs::AddedItems::discard_none))]
fn discard_items(k: u64, further: u64) -> u64
    ensures { result ≡ length (discard_items k further) }
{
    if k == 0 && further == 0 { 0 } else { 1 }
}

// How many items an opening is before `further` items.
#[tactic(auto, unfolding(crate::specs::AddedItems::opening_items))]
fn opening_items(opening: Opening, further: u64) -> u64
    ensures { (lent : Bytes) (xs : List ℕ) → result ≡ length (opening_items (map_opening (taken lent) (opening_of xs opening)) further) }
{
    match opening {
        Opening::Discard(k) => discard_items(k, further),
        Opening::DiscardAll => 1,
        Opening::Full(_, authority) => 1 + authority_items(authority, further),
    }
}

// How many items follow the opening: what is unset at the end is left off.
#[tactic(auto, unfolding(rules::specs::Encode::tail_items))]
fn further_items(path: Option<usize>, query: Option<usize>, fragment: Option<Span>) -> u64
    ensures { (lent : Bytes) (xs ys : List ℕ) → result ≡ length (tail_items (Option.map (map (taken lent)) (texts_of xs path)) (Option.map (map (taken lent)) (texts_of ys query)) (Option.map (taken lent) (fragment_of fragment))) }
{
    match (path, query, fragment) {
        (_, _, Some(_)) => 3,
        (_, Some(_), None) => 2,
        (Some(_), None, None) => 1,
        (None, None, None) => 0,
    }
}

// ---- an encoding while it is made: each piece is added at its end. A piece that would make it longer than the largest, or of which a text lies
// outside the lent bytes, is refused

// The array begins with the bytes that are made, and `end` is how many they are.
#[derive(Drop)]
struct Encoding {
    bytes: [u8; BYTES],
    end: usize,
}

// Clauses see the bytes that are made.
impl Model for Encoding {
    ghost Value = { Bytes };

    ghost view = { λ e. take e.end e.bytes };

    ghost invariant = { λ e. e.end ≤ limits.bytes };
}

impl Encoding {
    fn bytes(&self) -> &[u8]
        ensures { result.now ≡ self.now }
    {
        &self.bytes[..self.end]
    }

    fn add_head(&mut self, kind: Kind, value: u64) -> Result<(), Refusal>
        ensures { answer_is (λ u. self.new) result ≡ added true (head_bytes (kind_is kind) value) self.old }
    {
        if BYTES - self.end < cbor_heads::head_length(value) {
            refuse!(Limit, 0);
        }
        self.end = cbor_heads::put_head(&mut self.bytes, self.end, kind, value);
        Ok(())
    }

    // The bytes of a span.
    fn add_part(&mut self, lent: &[u8], span: Span) -> Result<(), Refusal>
        ensures { answer_is (λ u. self.new) result ≡ added (inside lent.now (span_is span)) (taken lent.now (span_is span)) self.old }
    {
        if lent.len() < span.length {
            refuse!(Limit, 0);
        }
        if lent.len() - span.length < span.start {
            refuse!(Limit, 0);
        }
        if BYTES - self.end < span.length {
            refuse!(Limit, 0);
        }
        self.end = put_bytes(&mut self.bytes, self.end, span.of(lent));
        Ok(())
    }

    // A text or a byte string.
    fn add_string(&mut self, kind: Kind, lent: &[u8], span: Span) -> Result<(), Refusal>
        ensures { answer_is (λ u. self.new) result ≡ added (all (inside lent.now) (one_text (span_is span))) (string_item (kind_is kind) (taken lent.now (span_is span))) self.old }
    {
        self.add_head(kind, span.length as u64)?;
        self.add_part(lent, span)
    }

    #[tactic(auto, unfolding(rules::specs::Head::head_bytes, rules::specs::Head::major_of, rules::specs::Head::shortest, rules::specs::Head::width, rules::specs::Bytes::big_endian))]
    fn add_null(&mut self) -> Result<(), Refusal>
        ensures { answer_is (λ u. self.new) result ≡ added true null_item self.old }
    {
        self.add_head(Kind::Null, 22)
    }

    // The n texts whose spans the numbers begin with.
    fn add_texts(&mut self, lent: &[u8], numbers: &[usize], n: usize) -> Result<(), Refusal>
        requires { 2 * n ≤ length numbers.now }
        ensures { answer_is (λ u. self.new) result ≡ added (all (inside lent.now) (spans_of n numbers.now)) (text_items lent.now (spans_of n numbers.now)) self.old }
    {
        for i in 0..n {
            let span = Span {
                start: numbers[2 * i],
                length: numbers[2 * i + 1],
            };
            self.add_string(Kind::Text, lent, span)?;
        }
        Ok(())
    }

    // ---- opening

    #[tactic(auto, unfolding(rules::specs::Bytes::all, rules::specs::Encode::or_null, rules::specs::Encode::scheme_item, rules::specs::Encode::text_item, crate::specs::AddedItems::string_item))]
    fn add_scheme(&mut self, lent: &[u8], scheme: Option<Scheme>) -> Result<(), Refusal>
        ensures { answer_is (λ u. self.new) result ≡ added (all (inside lent.now) (where_set scheme_texts (scheme_of scheme))) (or_null scheme_item (Option.map (map_scheme (taken lent.now)) (scheme_of scheme))) self.old }
    {
        match scheme {
            None => self.add_null(),
            Some(Scheme::Number(n)) => self.add_head(Kind::Negative, carried(n)),
            Some(Scheme::Name(span)) => self.add_string(Kind::Text, lent, span),
        }
    }

    #[tactic(auto, using(crate::proofs::Added::added_none, crate::proofs::AddedItems::one_item), unfolding(rules::specs::Encode::port_items, rules::specs::Bytes::concat))]
    fn add_port(&mut self, port: Option<u64>) -> Result<(), Refusal>
        ensures { answer_is (λ u. self.new) result ≡ added true (concat (port_items (port_of port))) self.old }
    {
        match port {
            None => Ok(()),
            Some(n) => self.add_head(Kind::Number, n),
        }
    }

    // An address, or the first texts of the array as labels.
    #[tactic(auto, using(crate::proofs::AddedItems::one_item), unfolding(rules::specs::Encode::host_items, crate::specs::AddedItems::string_item, crate::specs::AddedItems::text_items))]
    fn add_host(&mut self, lent: &[u8], spans: &Spans, host: Host) -> Result<(), Refusal>
        requires { labels_in host ≤ most_labels }
        ensures { answer_is (λ u. self.new) result ≡ added (all (inside lent.now) (host_texts (host_of spans.now host))) (concat (host_items (map_host (taken lent.now) (host_of spans.now host)))) self.old }
    {
        match host {
            Host::Address(span) => self.add_string(Kind::ByteString, lent, span),
            Host::Labels(n) => self.add_texts(lent, spans, n),
        }
    }

    // The array of a host and a port.
    fn add_authority_item(
        &mut self,
        lent: &[u8],
        spans: &Spans,
        authority: Authority,
    ) -> Result<(), Refusal>
        requires { labels_in authority.host ≤ most_labels }
        ensures { answer_is (λ u. self.new) result ≡ added (all (inside lent.now) (host_texts (host_of spans.now authority.host))) (authority_item (record { host = map_host (taken lent.now) (host_of spans.now authority.host); port = port_of authority.port })) self.old }
    {
        let items = host_items(authority.host) + port_items(authority.port);
        self.add_head(Kind::Array, items)?;
        self.add_host(lent, spans, authority.host)?;
        self.add_port(authority.port)
    }

    // An authority, before `further` items.
    #[tactic(auto, using(crate::proofs::Added::added_none, crate::proofs::AddedItems::one_item, crate::proofs::AddedItems::no_authority_lem, crate::proofs::AddedItems::null_authority), unfolding(rules::specs::Bytes::all, rules::specs::Bytes::concat, crate::specs::AddedItems::authority_items))]
    fn add_authority(
        &mut self,
        lent: &[u8],
        spans: &Spans,
        authority: Option<Authority>,
        further: u64,
    ) -> Result<(), Refusal>
        requires { host_count authority ≤ most_labels }
        ensures { answer_is (λ u. self.new) result ≡ added (all (inside lent.now) (where_set (λ a. host_texts a.host) (authority_of spans.now authority))) (concat (authority_items (Option.map (map_authority (taken lent.now)) (authority_of spans.now authority)) further)) self.old }
    {
        match authority {
            Some(authority) => self.add_authority_item(lent, spans, authority),
            None if 0 < further => self.add_null(),
            None => Ok(()),
        }
    }

    #[tactic(auto, using(crate::proofs::Added::added_none, crate::proofs::AddedItems::no_discard, crate::proofs::AddedItems::a_discard))]
    fn add_discard(&mut self, k: u64, further: u64) -> Result<(), Refusal>
        ensures { answer_is (λ u. self.new) result ≡ added true (concat (discard_items k further)) self.old }
    {
        if discard_items(k, further) == 0 {
            return Ok(());
        }
        self.add_head(Kind::Number, k)
    }

    // The opening, before `further` items.
    #[tactic(auto, unfolding(rules::specs::Bytes::all, rules::specs::Bytes::concat, rules::specs::Bytes::big_endian, rules::specs::Head::head_bytes, rules::specs::Head::major_of, rules::specs::Head::shortest, rules::specs::Head::width, crate::specs::AddedItems::opening_items))]
    fn add_opening(
        &mut self,
        lent: &[u8],
        spans: &Spans,
        opening: Opening,
        further: u64,
    ) -> Result<(), Refusal>
        requires { label_count opening ≤ most_labels }
        ensures { answer_is (λ u. self.new) result ≡ added (all (inside lent.now) (opening_texts (opening_of spans.now opening))) (concat (opening_items (map_opening (taken lent.now) (opening_of spans.now opening)) further)) self.old }
    {
        match opening {
            Opening::Discard(k) => self.add_discard(k, further),
            Opening::DiscardAll => self.add_head(Kind::True, 21),
            Opening::Full(scheme, authority) => {
                self.add_scheme(lent, scheme)?;
                self.add_authority(lent, spans, authority, further)
            }
        }
    }

    // ---- path, query, fragment

    // A path or a query, whose spans the numbers begin with.
    #[tactic(auto, unfolding(rules::specs::Bytes::all, rules::specs::Encode::or_null))]
    fn add_slot(
        &mut self,
        lent: &[u8],
        numbers: &[usize],
        texts: Option<usize>,
    ) -> Result<(), Refusal>
        requires { 2 * text_count texts ≤ length numbers.now }
        ensures { answer_is (λ u. self.new) result ≡ added (all (inside lent.now) (elements (texts_of numbers.now texts))) (or_null texts_item (Option.map (map (taken lent.now)) (texts_of numbers.now texts))) self.old }
    {
        let Some(n) = texts else {
            return self.add_null();
        };
        self.add_head(Kind::Array, n as u64)?;
        self.add_texts(lent, numbers, n)
    }

    #[tactic(auto, using(crate::proofs::Added::added_none, crate::proofs::AddedItems::one_item), unfolding(rules::specs::Bytes::all, rules::specs::Bytes::concat, rules::specs::Encode::text_item, crate::specs::AddedItems::string_item, crate::specs::AddedItems::fragment_items))]
    fn add_fragment(&mut self, lent: &[u8], fragment: Option<Span>) -> Result<(), Refusal>
        ensures { answer_is (λ u. self.new) result ≡ added (all (inside lent.now) (where_set one_text (fragment_of fragment))) (concat (fragment_items (Option.map (taken lent.now) (fragment_of fragment)))) self.old }
    {
        match fragment {
            None => Ok(()),
            Some(span) => self.add_string(Kind::Text, lent, span),
        }
    }

    // The first `further` of path, query and fragment.
    #[tactic(auto, using(crate::proofs::AddedItems::counted_each))]
    fn add_further(
        &mut self,
        lent: &[u8],
        spans: &Spans,
        c: Components,
        further: u64,
    ) -> Result<(), Refusal>
        requires further_value { further ≡ length (tail_of (said_by lent.now spans.now c)) }
        requires few { counted limits (components_of spans.now c) ≡ true }
        ensures { answer_is (λ u. self.new) result ≡ added (all (inside lent.now) (tail_texts (components_of spans.now c))) (concat (tail_of (said_by lent.now spans.now c))) self.old }
    {
        if further == 0 {
            return Ok(());
        }
        let segments = 2 * label_count(c.opening);
        self.add_slot(lent, &spans[segments..], c.path)?;
        if further == 1 {
            return Ok(());
        }
        let parameters = segments + 2 * text_count(c.path);
        self.add_slot(lent, &spans[parameters..], c.query)?;
        self.add_fragment(lent, c.fragment)
    }

    // ---- the whole

    fn add_reference(&mut self, lent: &[u8], spans: &Spans, c: Components) -> Result<(), Refusal>
        requires { counted limits (components_of spans.now c) ≡ true }
        ensures { answer_is (λ u. self.new) result ≡ added (all (inside lent.now) (all_texts (components_of spans.now c))) (encode (said_by lent.now spans.now c)) self.old }
    {
        let further = further_items(c.path, c.query, c.fragment);
        let items = opening_items(c.opening, further) + further;
        self.add_head(Kind::Array, items)?;
        self.add_opening(lent, spans, c.opening, further)?;
        self.add_further(lent, spans, c, further)
    }
}

// What the head of a scheme number carries: the number of its id. A number whose id 64 bits do not hold is carried as
// it is, and the reader refuses the encoding.
fn carried(number: u64) -> u64
    ensures { result ≡ number }
{
    scheme_id(number).and_then(scheme_number).unwrap_or(number)
}

// 9.2: whether no count is over its size.
#[tactic(auto, using(crate::proofs::AddedItems::counted_by))]
fn is_counted(c: Components) -> bool
    ensures { (xs : List ℕ) → result ≡ counted limits (components_of xs c) }
{
    label_count(c.opening) <= LABELS
        && text_count(c.path) <= SEGMENTS
        && text_count(c.query) <= PARAMETERS
}

// The answer, and the encoding in the room.
pub fn write(c: Components, spans: &Spans, lent: &[u8], room: &mut [u8]) -> Outcome
    ensures result_value { outcome_is result ≡ outcome (write_call limits (components_of spans.now c) lent.now) (length room.old) }
    ensures room_after { room.new ≡ after (write_call limits (components_of spans.now c) lent.now) room.old }
{
    if !is_counted(c) {
        refuse!(Limit, 0);
    }
    let mut encoding = Encoding {
        bytes: [0; BYTES],
        end: 0,
    };
    encoding.add_reference(lent, spans, c)?;
    let made = encoding.bytes();
    match reader::read(made) {
        Err(refusal) => Err(Refusal {
            place: 0,
            ..refusal
        }),
        Ok(_) => outcomes::copied(made, room),
    }
}
