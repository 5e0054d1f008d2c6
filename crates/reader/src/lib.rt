// Where everything stands in a CRI reference: one pass over any bytes, left to right, to the first fault or to the end.
#![tactic(auto)]

ghost use Rattle.std.specs.Prelude.{◌≡◌, true, ◌||◌, ℕ, ◌+◌, ◌≤◌, ◌<◌, length};
ghost use Rattle.rules.specs.Bytes.{Bytes};
ghost use Rattle.rules.specs.Result.{ok};
ghost use Rattle.rules.specs.Model.{limits};
ghost use Rattle.rules.specs.Rules.{address_size};
ghost use Rattle.rules.specs.Head.{Number, Negative, ByteString, Text, True, is, read_head};
ghost use Rattle.rules.specs.Reader as R;
ghost use Rattle.refusals.specs.Answers.{answer_is};
ghost use Rattle.cbor.specs.Heads.{head_is};
ghost use Rattle.texts.specs.Answers.{sort_is};
ghost use Rattle.reader.specs.Answers.{unset_before, set_before, slot_is, fragment_is, names_is, scheme_of, authority_of, read_host, opening_of, opened_is, first_is, found_of, read_rest};

use cbor::{Head, Kind, Kinds, Span, head_at};
use cbor_rows::Row;
use numbers::{
    AUTHORITY_ITEMS, BYTES, DISCARD, DISCARD_ITEMS, ITEMS, LABELS, PARAMETERS, PORT, SEGMENTS,
};
use refusals::{Refusal, refuse};
use schemes::{scheme_id, scheme_number};
use texts::{Sort, scheme_body, text_body};

// ---- answers

// Where an address stands; or the labels.
#[derive(Clone, Copy, Debug, PartialEq, Eq)]
pub enum HostAt {
    Address(Span),
    Labels(Row),
}

// The first byte of an authority, what it says, and the position after it.
#[derive(Clone, Copy, Debug, PartialEq, Eq)]
pub struct AuthorityAt {
    pub at: usize,
    pub host: HostAt,
    pub port: Option<u64>,
    pub next: usize,
}

// A scheme's number; or where its name stands.
#[derive(Clone, Copy, Debug, PartialEq, Eq)]
pub enum Scheme {
    Number(u64),
    Name(Span),
}

#[derive(Clone, Copy, Debug, PartialEq, Eq)]
pub enum OpeningAt {
    Discard(u64),
    DiscardAll,
    Full(Option<Scheme>, AuthorityAt),
}

// Where everything stands.
#[derive(Clone, Copy, Debug, PartialEq, Eq)]
pub struct Found {
    pub opening: OpeningAt,
    pub path: Option<Row>,
    pub query: Option<Row>,
    pub fragment: Option<Span>,
}

// How many labels there are, the port, and the position after it.
#[derive(Drop)]
struct Names {
    count: usize,
    port: Option<u64>,
    next: usize,
}

// The first item: a discard; or a scheme, which the authority follows.
#[derive(Drop)]
enum First {
    Discard(OpeningAt),
    Scheme(Option<Scheme>),
}

// The opening, the position after it, and how many items are left.
#[derive(Drop)]
struct Opened {
    opening: OpeningAt,
    next: usize,
    left: usize,
}

// ---- the kinds of items that are allowed at a place

const NOTHING: Kinds = Kinds {
    number: false,
    negative: false,
    byte_string: false,
    text: false,
    array: false,
    yes: false,
    null: false,
};

const TEXT: Kinds = Kinds {
    text: true,
    ..NOTHING
};

const ARRAY: Kinds = Kinds {
    array: true,
    ..NOTHING
};

const NUMBER: Kinds = Kinds {
    number: true,
    ..NOTHING
};

const ARRAY_OR_NULL: Kinds = Kinds {
    array: true,
    null: true,
    ..NOTHING
};

const TEXT_OR_NULL: Kinds = Kinds {
    text: true,
    null: true,
    ..NOTHING
};

const TEXT_OR_NUMBER: Kinds = Kinds {
    text: true,
    number: true,
    ..NOTHING
};

const ADDRESS_OR_LABEL: Kinds = Kinds {
    byte_string: true,
    text: true,
    ..NOTHING
};

const OPENINGS: Kinds = Kinds {
    byte_string: false,
    array: false,
    number: true,
    negative: true,
    text: true,
    yes: true,
    null: true,
};

// ---- texts

fn text_at(s: &[u8], at: usize, sort: Sort) -> Result<usize, Refusal>
    ensures { answer_is (λ n. n) result ≡ R.read_text (sort_is sort) s.now at }
{
    let head = head_at(s, at, TEXT)?;
    text_body(s, at, head, sort)
}

// Texts that stand in a row: the position after them.
fn row_at(s: &[u8], row: Row, sort: Sort) -> Result<usize, Refusal>
    ensures { answer_is (λ n. n) result ≡ R.read_row (sort_is sort) s.now row.at row.count }
{
    let mut here = row.at;
    for i in 0..row.count {
        here = text_at(s, here, sort)?;
    }
    Ok(here)
}

// ---- path, query, fragment: where it stands, if it is set, and the position after it

// Null, after which `left` items are left: never the last.
fn null_body(at: usize, left: usize, head: Head) -> Result<usize, Refusal>
    ensures { answer_is unset_before result ≡ R.null_body at left (head_is head) }
{
    if left == 0 {
        refuse!(Form, at);
    }
    Ok(head.next)
}

// An array of low to high texts, whose head has been read.
fn array_body(
    s: &[u8],
    at: usize,
    head: Head,
    sort: Sort,
    low: u64,
    high: u64,
) -> Result<(Row, usize), Refusal>
    ensures { answer_is set_before result ≡ R.array_body (sort_is sort) low high s.now at (head_is head) }
{
    if head.value < low || high < head.value {
        refuse!(Limit, at);
    }
    let row = Row {
        at: head.next,
        count: head.value as usize,
    };
    let next = row_at(s, row, sort)?;
    Ok((row, next))
}

// An array of low to high texts, or null, or nothing where no item is left. It becomes a part of its caller, so that a path or a query that is not
// there takes no call.
#[inline(always)]
fn array_at(
    s: &[u8],
    at: usize,
    left: usize,
    sort: Sort,
    low: u64,
    high: u64,
) -> Result<(Option<Row>, usize), Refusal>
    ensures { answer_is slot_is result ≡ R.read_array (sort_is sort) low high s.now at left }
{
    if left == 0 {
        return Ok((None, at));
    }
    let head = head_at(s, at, ARRAY_OR_NULL)?;
    if head.is(Kind::Null) {
        let next = null_body(at, left - 1, head)?;
        return Ok((None, next));
    }
    let (row, next) = array_body(s, at, head, sort, low, high)?;
    Ok((Some(row), next))
}

// A text, or null, or nothing where no item is left.
fn fragment_at(s: &[u8], at: usize, left: usize) -> Result<(Option<Span>, usize), Refusal>
    ensures { answer_is fragment_is result ≡ R.read_fragment s.now at left }
{
    if left == 0 {
        return Ok((None, at));
    }
    let head = head_at(s, at, TEXT_OR_NULL)?;
    if head.is(Kind::Null) {
        let next = null_body(at, left - 1, head)?;
        return Ok((None, next));
    }
    let next = text_body(s, at, head, Sort::Fragment)?;
    let span = Span {
        start: head.next,
        length: head.value as usize,
    };
    Ok((Some(span), next))
}

// ---- authority

// Nothing may stand after the port.
fn nothing_at(s: &[u8], at: usize, left: usize) -> Result<usize, Refusal>
    ensures { answer_is (λ n. n) result ≡ R.read_nothing s.now at left }
{
    if left == 0 {
        return Ok(at);
    }
    if s.len() <= at {
        refuse!(Cut, at);
    }
    refuse!(Form, at);
}

// A port, whose head has been read, after `count` labels.
fn port_body(s: &[u8], at: usize, left: usize, count: usize, head: Head) -> Result<Names, Refusal>
    ensures { answer_is names_is result ≡ R.port_body s.now at left count (head_is head) }
{
    if PORT < head.value {
        refuse!(Limit, at);
    }
    let next = nothing_at(s, head.next, left)?;
    Ok(Names {
        count,
        port: Some(head.value),
        next,
    })
}

// After an address: a port, or nothing.
fn port_at(s: &[u8], at: usize, left: usize) -> Result<Names, Refusal>
    ensures { answer_is names_is result ≡ R.read_port s.now at left }
{
    if left == 0 {
        return Ok(Names {
            count: 0,
            port: None,
            next: at,
        });
    }
    let head = head_at(s, at, NUMBER)?;
    port_body(s, at, left - 1, 0, head)
}

// A label after `count` others, whose head has been read; a ninth is over the limit.
fn label_body(s: &[u8], at: usize, count: usize, head: Head) -> Result<usize, Refusal>
    requires { head.next ≤ length s.now }
    ensures { answer_is (λ n. n) result ≡ R.label_body count s.now at (head_is head) }
{
    if LABELS <= count {
        refuse!(Limit, at);
    }
    text_body(s, at, head, Sort::Label)
}

// After `count` labels: a label, a port, or nothing, to the end of the `items` items.
fn names_at(s: &[u8], at: usize, items: usize, count: usize) -> Result<Names, Refusal>
    requires { count + items ≤ 9 }
    ensures { answer_is names_is result ≡ R.read_names s.now at items count }
{
    let mut here = at;
    for i in 0..items {
        let head = head_at(s, here, TEXT_OR_NUMBER)?;
        if !head.is(Kind::Text) {
            return port_body(s, here, items - i - 1, count + i, head);
        }
        here = label_body(s, here, count + i, head)?;
    }
    Ok(Names {
        count: count + items,
        port: None,
        next: here,
    })
}

// Whether an address may have n bytes.
pub fn is_address_length(n: u64) -> bool
    ensures { result ≡ address_size n }
{
    matches!(n, 4 | 16)
}

// An address, whose head has been read, and a port.
fn address_host(
    s: &[u8],
    start: usize,
    at: usize,
    left: usize,
    head: Head,
) -> Result<AuthorityAt, Refusal>
    requires { head.next ≤ length s.now }
    ensures { answer_is authority_of result ≡ R.address_host s.now start at left (head_is head) }
{
    if !is_address_length(head.value) {
        refuse!(Limit, at);
    }
    let address = Span {
        start: head.next,
        length: head.value as usize,
    };
    if s.len() - address.start < address.length {
        refuse!(Cut, at);
    }
    let names = port_at(s, address.start + address.length, left)?;
    Ok(AuthorityAt {
        at: start,
        host: HostAt::Address(address),
        port: names.port,
        next: names.next,
    })
}

// Labels, of which the first one's head has been read, and a port; then the rules over all labels, at the authority's first byte.
fn labels_host(
    s: &[u8],
    start: usize,
    at: usize,
    left: usize,
    head: Head,
) -> Result<AuthorityAt, Refusal>
    requires left { left ≤ 8 }
    requires head { ok (head_is head) ≡ read_head (λ k. is ByteString k || is Text k) s.now at }
    requires kind { is Text (head_is head).kind ≡ true }
    ensures { answer_is authority_of result ≡ R.labels_host s.now start at left (head_is head) }
{
    let after = label_body(s, at, 0, head)?;
    let names = names_at(s, after, left, 1)?;
    let labels = Row {
        at,
        count: names.count,
    };
    if !texts::name_rule(s, labels) {
        refuse!(Rule, start);
    }
    Ok(AuthorityAt {
        at: start,
        host: HostAt::Labels(labels),
        port: names.port,
        next: names.next,
    })
}

// The host and port of an authority that starts at `start` and has `items` items, the first of them at `at`.
fn host_at(s: &[u8], start: usize, at: usize, items: usize) -> Result<AuthorityAt, Refusal>
    requires { (1 ≤ items) × (items ≤ 9) }
    ensures { answer_is authority_of result ≡ read_host s.now start at items }
{
    let head = head_at(s, at, ADDRESS_OR_LABEL)?;
    if head.is(Kind::Text) {
        labels_host(s, start, at, items - 1, head)
    } else {
        address_host(s, start, at, items - 1, head)
    }
}

fn authority_at(s: &[u8], at: usize) -> Result<AuthorityAt, Refusal>
    ensures { answer_is authority_of result ≡ R.read_authority s.now at }
{
    let array = head_at(s, at, ARRAY)?;
    if array.value < 1 || AUTHORITY_ITEMS < array.value {
        refuse!(Limit, at);
    }
    host_at(s, at, array.next, array.value as usize)
}

// ---- opening

// A scheme needs a second item, the authority.
fn after_scheme(
    s: &[u8],
    at: usize,
    count: usize,
    scheme: Option<Scheme>,
    next: usize,
) -> Result<Opened, Refusal>
    ensures { answer_is opened_is result ≡ R.after_scheme s.now at count (scheme_of scheme) next }
{
    if count < 2 {
        refuse!(Form, at);
    }
    let authority = authority_at(s, next)?;
    Ok(Opened {
        opening: OpeningAt::Full(scheme, authority),
        next: authority.next,
        left: count - 2,
    })
}

// A discard, the first of `count` items.
fn discard_body(at: usize, count: usize, head: Head) -> Result<(First, usize), Refusal>
    ensures { (bs : Bytes) → first_is bs at count result ≡ R.opening_body bs at count (head_is head) Number }
{
    if DISCARD < head.value {
        refuse!(Limit, at);
    }
    if DISCARD_ITEMS < count {
        refuse!(Form, at);
    }
    if count == 1 && head.value == 0 {
        refuse!(Form, at);
    }
    Ok((First::Discard(OpeningAt::Discard(head.value)), head.next))
}

// True, the first of `count` items.
fn discard_all_body(at: usize, count: usize, head: Head) -> Result<(First, usize), Refusal>
    ensures { (bs : Bytes) → first_is bs at count result ≡ R.opening_body bs at count (head_is head) True }
{
    if DISCARD_ITEMS < count {
        refuse!(Form, at);
    }
    Ok((First::Discard(OpeningAt::DiscardAll), head.next))
}

// A scheme's name, whose head has been read.
fn name_body(s: &[u8], at: usize, head: Head) -> Result<(First, usize), Refusal>
    requires { head.next ≤ length s.now }
    ensures { (count : ℕ) → first_is s.now at count result ≡ R.opening_body s.now at count (head_is head) Text }
{
    let end = scheme_body(s, at, head)?;
    let name = Span {
        start: head.next,
        length: head.value as usize,
    };
    Ok((First::Scheme(Some(Scheme::Name(name))), end))
}

// A scheme's number, whose head has been read: its id is -1 - n.
fn number_body(at: usize, head: Head) -> Result<(First, usize), Refusal>
    ensures { (bs : Bytes) (count : ℕ) → first_is bs at count result ≡ R.opening_body bs at count (head_is head) Negative }
{
    let Some(id) = scheme_id(head.value) else {
        refuse!(Rule, at)
    };
    if !schemes::is_known(id) {
        refuse!(Rule, at);
    }
    let Some(number) = scheme_number(id) else {
        refuse!(Rule, at)
    };
    Ok((First::Scheme(Some(Scheme::Number(number))), head.next))
}

// The first of `count` items, and the position after it.
fn first_at(s: &[u8], at: usize, count: usize) -> Result<(First, usize), Refusal>
    requires { 0 < count }
    ensures { first_is s.now at count result ≡ R.read_opening s.now at count }
{
    let head = head_at(s, at, OPENINGS)?;
    match head.kind {
        Kind::Number => discard_body(at, count, head),
        Kind::True => discard_all_body(at, count, head),
        Kind::Negative => number_body(at, head),
        Kind::Text => name_body(s, at, head),
        Kind::Null => Ok((First::Scheme(None), head.next)),
        Kind::ByteString | Kind::Array | Kind::Other => refuse!(Form, at),
    }
}

// The opening, at the head of `count` items.
fn opening_at(s: &[u8], at: usize, count: usize) -> Result<Opened, Refusal>
    ensures { answer_is opened_is result ≡ R.read_opening s.now at count }
{
    if count == 0 {
        return Ok(Opened {
            opening: OpeningAt::Discard(0),
            next: at,
            left: 0,
        });
    }
    match first_at(s, at, count)? {
        (First::Discard(opening), next) => Ok(Opened {
            opening,
            next,
            left: count - 1,
        }),
        (First::Scheme(scheme), next) => after_scheme(s, at, count, scheme, next),
    }
}

// ---- the whole

// Path, query and fragment, of which `left` items are left, and the end, after which nothing may stand.
fn rest_at(s: &[u8], opening: OpeningAt, at: usize, left: usize) -> Result<Found, Refusal>
    ensures { answer_is found_of result ≡ read_rest limits s.now (opening_of opening) at left }
{
    let (path, after_path) = array_at(s, at, left, Sort::Segment, 0, SEGMENTS as u64)?;
    let (query, after_query) = array_at(
        s,
        after_path,
        left.saturating_sub(1),
        Sort::Parameter,
        1,
        PARAMETERS as u64,
    )?;
    let (fragment, end) = fragment_at(s, after_query, left.saturating_sub(2))?;
    if end < s.len() {
        refuse!(Tail, end);
    }
    Ok(Found {
        opening,
        path,
        query,
        fragment,
    })
}

// The whole reader.
pub fn read(s: &[u8]) -> Result<Found, Refusal>
    ensures { answer_is found_of result ≡ R.read limits s.now }
{
    if BYTES < s.len() {
        refuse!(Limit, BYTES);
    }
    let array = head_at(s, 0, ARRAY)?;
    if ITEMS < array.value {
        refuse!(Form, 0);
    }
    let opened = opening_at(s, array.next, array.value as usize)?;
    rest_at(s, opened.opening, opened.next, opened.left)
}
