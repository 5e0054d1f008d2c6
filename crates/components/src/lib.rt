// The components of a CRI reference, and reading them: each text and address as where it stands in lent bytes.
#![tactic(auto)]

ghost use Rattle.std.specs.Prelude.{◌+◌, ◌≤◌, ◌≡◌, Some, length, get_or};
ghost use Rattle.std.proofs.Math.Option.{some};
ghost use Rattle.rules.specs.Bytes.{Bytes};
ghost use Rattle.rules.specs.Result.{ok};
ghost use Rattle.rules.specs.Model.{elements, limits, most_labels};
ghost use Rattle.rules.specs.Reader.{spans};
ghost use Rattle.rules.specs.Meaning.{authority_spans, opening_spans, text_spans, components};
ghost use Rattle.rules.specs.Calls.{read_call};
ghost use Rattle.rules.specs.Writing.{opening_labels};
ghost use Rattle.rules.specs.Standing.{RowAt, TextsStand, OpeningStands, FoundStands};
ghost use Rattle.put.specs.Wrote.{Wrote};
ghost use Rattle.refusals.specs.Answers.{answer_is};
ghost use Rattle.reader.specs.Answers.{slot_of, authority_of, opening_of, found_of};
ghost use Rattle.cbor.specs.Heads.{span_is};
ghost use Rattle.components.specs.Content.{numbered_span, label_count, text_count};
ghost use Rattle.components.specs.Layout.{authority_laid, opening_laid, texts_laid, components_laid, reading_laid, span_numbers, spans_after, TextsAt};

pub use cbor::Span;
use cbor_rows::{Row, spans_at};
use numbers::SPANS;
pub use reader::Scheme;
use reader::{AuthorityAt, Found, HostAt, OpeningAt};
use refusals::Refusal;

// Where the labels, then the segments, then the parameters stand: start and length of each.
pub type Spans = [usize; SPANS];

// Where an address stands; or how many labels there are.
#[derive(Clone, Copy, Debug, PartialEq, Eq)]
pub enum Host {
    Address(Span),
    Labels(usize),
}

#[derive(Clone, Copy, Debug, PartialEq, Eq)]
pub struct Authority {
    pub host: Host,
    pub port: Option<u64>,
}

// A discard: how many segments, or all; or a scheme and an authority.
#[derive(Clone, Copy, Debug, PartialEq, Eq)]
pub enum Opening {
    Discard(u64),
    DiscardAll,
    Full(Option<Scheme>, Option<Authority>),
}

// How many labels, segments and parameters there are; where they stand is in Spans. A path or a query that is set may have no text.
#[derive(Clone, Copy, Debug, PartialEq, Eq)]
pub struct Components {
    pub opening: Opening,
    pub path: Option<usize>,
    pub query: Option<usize>,
    pub fragment: Option<Span>,
}

// How many labels an opening has.
pub fn label_count(opening: Opening) -> usize
    ensures { result ≡ label_count opening }
{
    match opening {
        Opening::Full(_, Some(authority)) => match authority.host {
            Host::Address(_) => 0,
            Host::Labels(n) => n,
        },
        Opening::Full(_, None) => 0,
        Opening::DiscardAll => 0,
        Opening::Discard(_) => 0,
    }
}

// How many texts a path or a query has.
pub fn text_count(texts: Option<usize>) -> usize
    ensures { result ≡ text_count texts }
{
    texts.unwrap_or(0)
}

// The number at a place; 0 past the end.
fn number_at(numbers: &[usize], at: usize) -> usize
    ensures { result ≡ get_or numbers.now at 0 }
{
    numbers.get(at).copied().unwrap_or(0)
}

// Where the k-th text of Spans stands, counted from 0: the labels come first, then the segments, then the parameters. Past the end it is the
// empty span at 0.
pub fn text_span(spans: &[usize], k: usize) -> Span
    ensures { span_is result ≡ numbered_span spans.now k }
{
    if spans.len() <= k {
        return Span {
            start: 0,
            length: 0,
        };
    }
    Span {
        start: number_at(spans, 2 * k),
        length: number_at(spans, 2 * k + 1),
    }
}

// ---- texts in a row

// Where the items of a row stand, put into the room as numbers; of none where there is no row. The result is the place after them.
fn put_texts(room: &mut [usize], at: usize, s: &[u8], texts: Option<Row>) -> usize
    requires texts_at { TextsAt s.now (slot_of texts) }
    requires texts_in_bounds { at + length (span_numbers (elements (text_spans s.now (slot_of texts)))) ≤ length room.old }
    ensures { Wrote room.old at (span_numbers (elements (text_spans s.now (slot_of texts)))) room.new result }
{
    match texts {
        None => at,
        Some(row) => put_spans(room, at, s, row),
    }
}

fn put_spans(room: &mut [usize], at: usize, s: &[u8], row: Row) -> usize
    requires row_at { RowAt s.now row.at row.count }
    requires row_in_bounds { at + length (span_numbers (spans s.now row.at row.count)) ≤ length room.old }
    ensures { Wrote room.old at (span_numbers (spans s.now row.at row.count)) room.new result }
{
    let mut o = at;
    for span in spans_at(s, row) {
        room[o] = span.start;
        room[o + 1] = span.length;
        o += 2;
    }
    o
}

// ---- each component

fn authority_of(authority: AuthorityAt) -> Authority
    ensures { (bs : Bytes) → Some result ≡ authority_laid (some (authority_spans bs (authority_of authority))) }
{
    Authority {
        host: match authority.host {
            HostAt::Address(span) => Host::Address(span),
            HostAt::Labels(row) => Host::Labels(row.count),
        },
        port: authority.port,
    }
}

fn opening_of(opening: OpeningAt) -> Opening
    ensures { (bs : Bytes) → result ≡ opening_laid (opening_spans bs (opening_of opening)) }
{
    match opening {
        OpeningAt::Discard(k) => Opening::Discard(k),
        OpeningAt::DiscardAll => Opening::DiscardAll,
        OpeningAt::Full(scheme, authority) => Opening::Full(scheme, Some(authority_of(authority))),
    }
}

// Where the labels of an opening stand, if it has any.
fn labels_of(opening: OpeningAt) -> Option<Row>
    ensures result_value { (bs : Bytes) → elements (text_spans bs (slot_of result)) ≡ opening_labels (opening_spans bs (opening_of opening)) }
    ensures texts_stand { (bs : Bytes) → OpeningStands bs (opening_of opening) → TextsStand most_labels bs (slot_of result) }
{
    match opening {
        OpeningAt::Full(_, authority) => match authority.host {
            HostAt::Address(_) => None,
            HostAt::Labels(row) => Some(row),
        },
        OpeningAt::DiscardAll => None,
        OpeningAt::Discard(_) => None,
    }
}

fn texts_of(texts: Option<Row>) -> Option<usize>
    ensures { (bs : Bytes) → result ≡ texts_laid (text_spans bs (slot_of texts)) }
{
    Some(texts?.count)
}

// ---- all of them

fn components_of(found: Found) -> Components
    ensures { (bs : Bytes) → result ≡ components_laid (components bs (found_of found)) }
{
    Components {
        opening: opening_of(found.opening),
        path: texts_of(found.path),
        query: texts_of(found.query),
        fragment: found.fragment,
    }
}

// Where the labels, segments and parameters stand, from the start of the room on.
fn put_found(room: &mut Spans, s: &[u8], found: Found)
    requires { FoundStands limits s.now (found_of found) }
    ensures { room.new ≡ spans_after (ok (components s.now (found_of found))) room.old }
{
    let segments = put_texts(room, 0, s, labels_of(found.opening));
    let parameters = put_texts(room, segments, s, found.path);
    put_texts(room, parameters, s, found.query);
}

// What is said, and where its texts stand; or the refusal, and the spans are as they were.
pub fn read(s: &[u8], spans: &mut Spans) -> Result<Components, Refusal>
    ensures value { answer_is (λ c. c) result ≡ reading_laid (read_call limits s.now) }
    ensures spans_after { spans.new ≡ spans_after (read_call limits s.now) spans.old }
{
    let found = reader::read(s)?;
    put_found(spans, s, found);
    Ok(components_of(found))
}
