// Where the parts of a resolved CRI stand, and writing them. An item that was accepted is the encoding of what it says, so the result is made of parts
// of the two inputs.
#![tactic(auto)]

ghost use Rattle.std.specs.Prelude.{◌+◌, ◌-◌, ◌≤◌, ◌<◌, ◌≡◌, true, cond, List, ◌++◌, length, take};
ghost use Rattle.std.proofs.Math.Option.{none, some};
ghost use Rattle.rules.specs.Bytes.{Bytes};
ghost use Rattle.rules.specs.Model.{Scheme, Authority, full, Cri, elements, absolute, normal_path};
ghost use Rattle.rules.specs.Meaning.{meaning, said_texts, said_text, said_opening};
ghost use Rattle.rules.specs.Resolve.{or, resolve as rules_resolve};
ghost use Rattle.rules.specs.Laid.{fragment_start, tail_start};
ghost use Rattle.reader.specs.Answers.{slot_of, text_of, opening_of, found_of};
ghost use Rattle.put.specs.Wrote.{Wrote};
ghost use Rattle.resolver_parts.specs.Parts.{both_of, BothInside, BothIs, front_items, Accepted, RowIs, row_texts, Small, kept, PathIs, keeps_query, takes_query, further_of, TailIs, PartsAre};
ghost use Rattle.resolver_parts.specs.Written.{BothSmall, path_head, path_items, PartsInside, PartsSmall, parts_of};

use cbor::{Kind, Span};
use cbor_heads::{head_length, put_head};
use cbor_rows::Row;
use put::put_bytes;
use reader::{Found, OpeningAt};

// An input that was read, and where everything stands in it.
#[derive(Clone, Copy)]
pub struct Input<'a> {
    pub bytes: &'a [u8],
    pub found: Found,
}

// A part of the base, and after it one of the reference.
#[derive(Clone, Copy, Debug, PartialEq, Eq)]
pub struct Both {
    pub base: Span,
    pub reference: Span,
}

// Where the texts of a row stand, and how many there are.
#[derive(Clone, Copy)]
struct RowSpan {
    span: Span,
    count: usize,
}

// What stands in both, and how many texts or items that is.
#[derive(Clone, Copy, Debug, PartialEq, Eq)]
pub struct Counted {
    pub both: Both,
    pub count: usize,
}

// The result: scheme and authority; the segments of the path; query and fragment.
#[derive(Clone, Copy, Debug, PartialEq, Eq)]
pub struct Parts {
    pub front: Both,
    pub path: Counted,
    pub tail: Counted,
}

// ---- no bytes

const NOWHERE: Span = Span {
    start: 0,
    length: 0,
};

const NO_BOTH: Both = Both {
    base: NOWHERE,
    reference: NOWHERE,
};

const NO_ROW: RowSpan = RowSpan {
    span: NOWHERE,
    count: 0,
};

// From a position up to another.
fn between(start: usize, end: usize) -> Span
    requires { start ≤ end }
    ensures { result ≡ record { start = start; length = end - start } }
{
    Span {
        start,
        length: end - start,
    }
}

// ---- where the items of an input stand

impl Input<'_> {
    // Where the fragment starts; the end, where there is none.
    fn fragment_start(self) -> usize
        requires { Accepted self.bytes.now (found_of self.found) }
        ensures { result ≡ fragment_start (length self.entry.bytes.now) (text_of self.entry.found.fragment) }
    {
        match self.found.fragment {
            None => self.bytes.len(),
            Some(text) => text.start - head_length(text.length as u64),
        }
    }

    // Where the query starts, or the null in its place; the end, where nothing follows the path.
    fn tail_start(self) -> usize
        requires { Accepted self.bytes.now (found_of self.found) }
        ensures { result ≡ tail_start (length self.entry.bytes.now) (slot_of self.entry.found.query) (text_of self.entry.found.fragment) }
    {
        match (self.found.query, self.found.fragment) {
            (Some(row), _) => row.at - head_length(row.count as u64),
            (None, Some(_)) => self.fragment_start() - 1,
            (None, None) => self.bytes.len(),
        }
    }

    // The segments of the path.
    fn segments(self) -> RowSpan
        requires { Accepted self.bytes.now (found_of self.found) }
        ensures { RowIs self.entry.bytes.now result (elements (said_texts self.entry.bytes.now (slot_of self.entry.found.path))) }
    {
        match self.found.path {
            None => NO_ROW,
            Some(row) => RowSpan {
                span: between(row.at, self.tail_start()),
                count: row.count,
            },
        }
    }
}

// ---- scheme and authority

// Each of the two where the reference brings it, else the base's.
fn front(base: Input, reference: Input) -> Both
    requires base_accepted { Accepted base.bytes.now (found_of base.found) }
    requires reference_accepted { Accepted reference.bytes.now (found_of reference.found) }
    ensures { (s : Scheme Bytes) (a : Authority Bytes) → said_opening base.entry.bytes.now (opening_of base.entry.found.opening) ≡ full (some s) (some a) → BothIs base.entry.bytes.now reference.entry.bytes.now result (front_items (said_opening reference.entry.bytes.now (opening_of reference.entry.found.opening)) s a) }
{
    let OpeningAt::Full(_, old) = base.found.opening else {
        return NO_BOTH
    };
    match reference.found.opening {
        OpeningAt::Discard(_) | OpeningAt::DiscardAll => Both {
            base: between(1, old.next),
            reference: NOWHERE,
        },
        OpeningAt::Full(scheme, own) => match scheme {
            None => Both {
                base: between(1, old.at),
                reference: between(own.at, own.next),
            },
            Some(_) => Both {
                base: NOWHERE,
                reference: between(1, own.next),
            },
        },
    }
}

// ---- path

// A path of one empty segment becomes no path: no other path has one byte.
fn normal_row(row: RowSpan) -> RowSpan
    ensures { (bs : Bytes) (ts : List Bytes) → RowIs bs row ts → RowIs bs result (normal_path ts) }
{
    if row.span.length < 2 { NO_ROW } else { row }
}

// The segments without the last k, or none if there are fewer.
fn without_last(s: &[u8], row: RowSpan, k: u64) -> RowSpan
    requires { RowIs s.now row (row_texts s.now row) }
    ensures { RowIs s.now result (take (row.count - k) (row_texts s.now row)) }
{
    if k == 0 {
        return row;
    }
    let kept = Row {
        at: row.span.start,
        count: row.count.saturating_sub(k as usize),
    };
    RowSpan {
        span: between(kept.at, cbor_rows::after(s, kept)),
        count: kept.count,
    }
}

// What stays of the base's path.
fn kept_row(s: &[u8], row: RowSpan, opening: OpeningAt) -> RowSpan
    requires { RowIs s.now row (row_texts s.now row) }
    ensures { RowIs s.now result (kept (opening_of opening) (row_texts s.now row)) }
{
    match opening {
        OpeningAt::Discard(k) => without_last(s, row, k),
        OpeningAt::DiscardAll | OpeningAt::Full(_, _) => NO_ROW,
    }
}

// What stays of the base's path, and then the reference's; one empty segment is no path.
fn joined(old: RowSpan, new: RowSpan) -> Counted
    requires { Small old × Small new }
    ensures { (base ref : Bytes) (ts us : List Bytes) → RowIs base old ts → RowIs ref new us → PathIs base ref result (normal_path (ts ++ us)) }
{
    if old.span.length + new.span.length < 2 {
        return Counted {
            both: NO_BOTH,
            count: 0,
        };
    }
    Counted {
        both: Both {
            base: old.span,
            reference: new.span,
        },
        count: old.count + new.count,
    }
}

fn path_of(base: Input, reference: Input) -> Counted
    requires base_accepted { Accepted base.bytes.now (found_of base.found) }
    requires reference_accepted { Accepted reference.bytes.now (found_of reference.found) }
    ensures { PathIs base.entry.bytes.now reference.entry.bytes.now result (normal_path (kept (opening_of reference.entry.found.opening) (normal_path (elements (said_texts base.entry.bytes.now (slot_of base.entry.found.path)))) ++ elements (said_texts reference.entry.bytes.now (slot_of reference.entry.found.path)))) }
{
    let old = kept_row(
        base.bytes,
        normal_row(base.segments()),
        reference.found.opening,
    );
    joined(old, reference.segments())
}

// ---- query and fragment

// Whether the base's query stays: nothing is discarded, and no path is set.
fn keeps_query(opening: OpeningAt, path: Option<Row>) -> bool
    ensures { result ≡ keeps_query (opening_of opening) (slot_of path) }
{
    matches!(opening, OpeningAt::Discard(0)) && path.is_none()
}

// Whether the result has the base's query.
fn takes_query(base: Found, reference: Found) -> bool
    ensures { result ≡ takes_query (slot_of base.query) (opening_of reference.opening) (slot_of reference.path) (slot_of reference.query) }
{
    base.query.is_some()
        && reference.query.is_none()
        && keeps_query(reference.opening, reference.path)
}

// How many items they are, where there is a query or none.
fn count_further(query: bool, fragment: Option<Span>) -> usize
    ensures { result ≡ further_of query (text_of fragment) }
{
    match fragment {
        Some(_) => 2,
        None => usize::from(query),
    }
}

// The base's query where it stays, and the reference's fragment; else the reference's query and fragment.
fn tail_of(base: Input, reference: Input) -> Counted
    requires base_accepted { Accepted base.bytes.now (found_of base.found) }
    requires reference_accepted { Accepted reference.bytes.now (found_of reference.found) }
    ensures { TailIs base.entry.bytes.now reference.entry.bytes.now result (or (said_texts reference.entry.bytes.now (slot_of reference.entry.found.query)) (cond (keeps_query (opening_of reference.entry.found.opening) (slot_of reference.entry.found.path)) (said_texts base.entry.bytes.now (slot_of base.entry.found.query)) none)) (said_text reference.entry.bytes.now (text_of reference.entry.found.fragment)) }
{
    let found = reference.found;
    let end = reference.bytes.len();
    if takes_query(base.found, found) {
        return Counted {
            both: Both {
                base: between(base.tail_start(), base.fragment_start()),
                reference: between(reference.fragment_start(), end),
            },
            count: count_further(true, found.fragment),
        };
    }
    Counted {
        both: Both {
            base: NOWHERE,
            reference: between(reference.tail_start(), end),
        },
        count: count_further(found.query.is_some(), found.fragment),
    }
}

// ---- the whole

// The parts of the result.
pub fn parts_of(base: Input, reference: Input) -> Parts
    requires base_accepted { Accepted base.bytes.now (found_of base.found) }
    requires reference_accepted { Accepted reference.bytes.now (found_of reference.found) }
    ensures { (c : Cri) → absolute (meaning base.entry.bytes.now (found_of base.entry.found)) ≡ some c → PartsAre base.entry.bytes.now reference.entry.bytes.now result (rules_resolve c (meaning reference.entry.bytes.now (found_of reference.entry.found))) }
{
    Parts {
        front: front(base, reference),
        path: path_of(base, reference),
        tail: tail_of(base, reference),
    }
}

// ---- the bytes of a result

// How many items the path is: one where it has segments or `further` items follow it, else none.
#[tactic(auto, using(crate::proofs::ResultItems::items_path, crate::proofs::ResultItems::items_null, crate::proofs::ResultItems::items_none))]
fn path_items(segments: usize, further: usize) -> usize
    ensures { result ≡ path_items segments further }
{
    match (segments, further) {
        (0, 0) => 0,
        _ => 1,
    }
}

#[tactic(auto, using(crate::proofs::ResultItems::head_path, crate::proofs::ResultItems::null_length, crate::proofs::ResultItems::head_none))]
fn path_head_length(segments: usize, further: usize) -> usize
    ensures { result ≡ length (path_head segments further) }
{
    match (segments, further) {
        (0, 0) => 0,
        (0, _) => 1,
        _ => head_length(segments as u64),
    }
}

#[tactic(auto, using(crate::proofs::ResultItems::head_path, crate::proofs::ResultItems::head_null, crate::proofs::ResultItems::head_none))]
fn put_path_head(room: &mut [u8], at: usize, segments: usize, further: usize) -> usize
    requires { at + length (path_head segments further) ≤ length room.old }
    ensures { Wrote room.old at (path_head segments further) room.new result }
{
    match (segments, further) {
        (0, 0) => at,
        (0, _) => put_head(room, at, Kind::Null, 22),
        _ => put_head(room, at, Kind::Array, segments as u64),
    }
}

impl Both {
    fn length(self) -> usize
        requires { BothSmall self }
        ensures { result ≡ self.base.length + self.reference.length }
    {
        self.base.length + self.reference.length
    }

    fn put(self, room: &mut [u8], at: usize, base: &[u8], reference: &[u8]) -> usize
        requires both_inside { BothInside base.now reference.now self }
        requires length_in_bounds { at + (self.base.length + self.reference.length) ≤ length room.old }
        ensures { Wrote room.old at (both_of base.now reference.now self) room.new result }
    {
        let mid = put_bytes(room, at, self.base.of(base));
        put_bytes(room, mid, self.reference.of(reference))
    }
}

impl Parts {
    // How many bytes the result has.
    #[tactic(auto, using(crate::proofs::ResultItems::head_most_path))]
    pub fn length(self) -> usize
        requires { PartsSmall self }
        ensures { (base ref : Bytes) → PartsInside base ref self → result ≡ length (parts_of base ref self) }
    {
        1 + self.front.length()
            + path_head_length(self.path.count, self.tail.count)
            + self.path.both.length()
            + self.tail.both.length()
    }

    // The result, from the start of the room on.
    #[tactic(auto, using(crate::proofs::ResultItems::items_most))]
    pub fn put(self, room: &mut [u8], base: &[u8], reference: &[u8]) -> usize
        requires parts_small { PartsSmall self × PartsInside base.now reference.now self }
        requires room_enough { length (parts_of base.now reference.now self) ≤ length room.old }
        ensures { Wrote room.old 0 (parts_of base.now reference.now self) room.new result }
    {
        let count = 2 + path_items(self.path.count, self.tail.count) + self.tail.count;
        let a = put_head(room, 0, Kind::Array, count as u64);
        let b = self.front.put(room, a, base, reference);
        let c = put_path_head(room, b, self.path.count, self.tail.count);
        let d = self.path.both.put(room, c, base, reference);
        self.tail.both.put(room, d, base, reference)
    }
}
