// The words of an answer: components, views, and what a call left of its room.
#![tactic(auto)]

mod room;

use cbor::Span;
use components::{Authority, Components, Host, Opening, Scheme, Spans, text_span};
use numbers::SPANS;
use output::Output;
use refusals::{Reason, Refusal};
pub use room::{add_outcome, fill};
use std::ops::Range;

// The bytes in hex, or "-" where there are none.
fn add_bytes(out: &mut Output, s: &[u8]) {
    if s.is_empty() {
        out.byte(b'-');
    } else {
        out.hex(s);
    }
}

// The bytes of a span, where it lies inside s.
fn add_span(out: &mut Output, s: &[u8], span: Span) {
    match s.get(span.start..).and_then(|rest| rest.get(..span.length)) {
        Some(part) => add_bytes(out, part),
        None => out.text(b"? span outside"),
    }
}

// A link whose components are told, each word after a space.
#[derive(Drop)]
struct Link<'a> {
    bytes: &'a [u8],
    spans: &'a Spans,
    // The texts in Spans that are not told yet.
    texts: Range<usize>,
}

impl Link<'_> {
    fn add_span(&self, out: &mut Output, name: &[u8], span: Span) {
        out.text(name);
        add_span(out, self.bytes, span);
    }

    // The next texts, as many as a count says, each after a name.
    fn add_texts(&mut self, out: &mut Output, name: &[u8], count: usize) {
        let spans = self.spans;
        for k in self.texts.by_ref().take(count) {
            out.text(name);
            add_span(out, self.bytes, text_span(spans, k));
        }
    }

    fn add_scheme(&self, out: &mut Output, scheme: Option<Scheme>) {
        match scheme {
            None => out.text(b" scheme none"),
            Some(Scheme::Number(n)) => write!(out, " scheme number {n}"),
            Some(Scheme::Name(span)) => self.add_span(out, b" scheme text ", span),
        }
    }

    fn add_authority(&mut self, out: &mut Output, authority: Authority) {
        out.text(b" authority");
        match authority.host {
            Host::Address(span) => self.add_span(out, b" address ", span),
            Host::Labels(count) => self.add_texts(out, b" label ", count),
        }
        if let Some(port) = authority.port {
            write!(out, " port {port}");
        }
    }

    fn add_opening(&mut self, out: &mut Output, opening: Opening) {
        match opening {
            Opening::Discard(n) => write!(out, " discard {n}"),
            Opening::DiscardAll => out.text(b" discard all"),
            Opening::Full(scheme, authority) => {
                self.add_scheme(out, scheme);
                if let Some(authority) = authority {
                    self.add_authority(out, authority);
                }
            }
        }
    }

    // A path or a query: its name, and each text after another.
    fn add_slot(&mut self, out: &mut Output, name: &[u8], text: &[u8], slot: Option<usize>) {
        if let Some(count) = slot {
            out.text(name);
            self.add_texts(out, text, count);
        }
    }
}

// The components of a link, each word after a space.
pub fn add_components(out: &mut Output, bytes: &[u8], spans: &Spans, c: Components) {
    let mut link = Link {
        bytes,
        spans,
        texts: 0..SPANS,
    };
    link.add_opening(out, c.opening);
    link.add_slot(out, b" path", b" segment ", c.path);
    link.add_slot(out, b" query", b" parameter ", c.query);
    if let Some(span) = c.fragment {
        link.add_span(out, b" fragment ", span);
    }
}

// A refusal: its number, and of 1 to 8 its place.
pub fn add_refusal(out: &mut Output, refusal: Refusal) {
    let number = refusal.reason.number();
    out.number(u64::from(number));
    if number <= Reason::Base.number() {
        write!(out, " at {}", refusal.place);
    }
}

// Whether a call refused, and why.
pub(crate) fn add_verdict<T: Drop>(out: &mut Output, answer: Result<T, Refusal>) {
    match answer {
        Ok(_) => out.byte(b'0'),
        Err(refusal) => add_refusal(out, refusal),
    }
}

// The answer of a view: its verdict and its bytes.
pub fn add_view(out: &mut Output, verdict: Result<(), Refusal>, view: &[u8]) {
    add_verdict(out, verdict);
    out.byte(b' ');
    add_bytes(out, view);
}
