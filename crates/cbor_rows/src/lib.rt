// Items that stand in a row.
#![tactic(auto)]

ghost use Rattle.std.specs.Prelude.{◌≡◌, All, List, map};
ghost use Rattle.std.specs.Iterator.{YieldsFirstBy, YieldsFirstRef, item_count};
ghost use Rattle.rules.specs.Bytes.{Bytes};
ghost use Rattle.rules.specs.Model.{Span};
ghost use Rattle.rules.specs.Reader.{spans, taken, contents};
ghost use Rattle.rules.specs.Standing.{RowAt};
ghost use Rattle.cbor.specs.Heads.{span_is};
ghost use Rattle.cbor_rows.specs.Rows.{nth_at, SpanInside};

use cbor::{Span, span_at};
use std::marker::Model;

// Items that stand in a row: the position of the first, and how many there are.
#[derive(Clone, Copy, Debug, PartialEq, Eq)]
pub struct Row {
    pub at: usize,
    pub count: usize,
}

// Where the contents of items that stand in a row are: of those that are left.
#[derive(Drop)]
pub struct Spans<'a> {
    link: &'a [u8],
    at: usize,
    left: usize,
}

impl<'a> Model for Spans<'a> {
    ghost Value = { List Span };

    ghost view = { λ r. spans r.link.now r.at r.left };

    ghost invariant = { λ r. RowAt r.link.now r.at r.left };
}

impl<'a> Iterator for Spans<'a> {
    type Item = Span;

    ghost next_gives = { YieldsFirstBy span_is (λ spans. spans) };

    ghost remaining = { item_count (λ spans. spans) };

    fn next(&mut self) -> Option<Span> {
        if self.left == 0 {
            return None;
        }
        let span = span_at(self.link, self.at);
        self.at = span.start + span.length;
        self.left -= 1;
        Some(span)
    }
}

// Where the contents of the items of a row are.
pub fn spans_at(s: &[u8], row: Row) -> Spans<'_>
    requires { RowAt s.now row.at row.count }
    ensures { result ≡ spans s.now row.at row.count }
{
    Spans {
        link: s,
        at: row.at,
        left: row.count,
    }
}

// The contents of items that stand in a row: of those that are left.
#[derive(Drop)]
pub struct Texts<'a> {
    link: &'a [u8],
    spans: Spans<'a>,
}

impl<'a> Model for Texts<'a> {
    ghost Value = { List Bytes };

    ghost view = { λ r. map (taken r.link.now) r.spans };

    ghost invariant = { λ r. All (SpanInside r.link.now) r.spans };
}

impl<'a> Iterator for Texts<'a> {
    type Item = &'a [u8];

    ghost next_gives = { YieldsFirstRef (λ texts. texts) };

    ghost remaining = { item_count (λ texts. texts) };

    fn next(&mut self) -> Option<&'a [u8]> {
        let span = self.spans.next()?;
        Some(span.of(self.link))
    }
}

// The contents of the items of a row.
pub fn texts_at(s: &[u8], row: Row) -> Texts<'_>
    requires { RowAt s.now row.at row.count }
    ensures { result ≡ contents s.now row.at row.count }
{
    Texts {
        link: s,
        spans: spans_at(s, row),
    }
}

// The position after the items of a row.
pub fn after(s: &[u8], row: Row) -> usize
    requires { RowAt s.now row.at row.count }
    ensures { result ≡ nth_at s.now row.at row.count }
{
    let mut next = row.at;
    for span in spans_at(s, row) {
        next = span.start + span.length;
    }
    next
}
