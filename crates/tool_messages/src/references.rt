// The components of a reference, each on a line of its own.
use crate::counts::{Count, Negative};
use crate::quotes::{Address, Quoted};
use cbor::Span;
use components::{
    Authority, Components, Host, Opening, Scheme, Spans, label_count, text_count, text_span,
};
use numbers::SPANS;
use output::Output;
use std::fmt;

// The name of a scheme's number (RULES 1.6).
#[derive(Clone, Copy)]
pub struct SchemeName(pub u64);

impl fmt::Display for SchemeName {
    fn fmt<W: fmt::Write>(&self, f: &mut fmt::Formatter<W>) -> fmt::Result {
        let mut name = [0u8; schemes::NAME_ROOM];
        let end = schemes::put_name(&mut name, 0, self.0);
        match std::str::from_utf8(&name[..end]) {
            Ok("") | Err(_) => f.write_str("unknown"),
            Ok(name) => f.write_str(name),
        }
    }
}

// The bytes of a reference, and where the texts of its components stand in them.
#[derive(Clone, Copy)]
struct Reference<'a> {
    bytes: &'a [u8],
    spans: &'a Spans,
}

impl<'a> Reference<'a> {
    // What stands at a span. Every span that the reader reports lies inside the bytes.
    fn at(self, span: Span) -> &'a [u8] {
        match self.bytes.get(span.start..) {
            Some(rest) => &rest[..span.length.min(rest.len())],
            None => b"",
        }
    }

    // How many texts of this name there are, and each on a line of its own: those of the spans from the `first` on.
    fn say_texts(self, out: &mut Output, first: usize, count: usize, name: &'static str) {
        let spans = self.spans;
        writeln!(out, "{}", Count(count as u64, name));
        for (i, k) in (first..SPANS).take(count).enumerate() {
            let text = self.at(text_span(spans, k));
            writeln!(out, "      {i:>2}  {}", Quoted(text));
        }
    }

    fn say_scheme(self, out: &mut Output, scheme: Option<Scheme>) {
        out.text(b"scheme    ");
        match scheme {
            None => writeln!(out, "unset"),
            Some(Scheme::Number(n)) => writeln!(
                out,
                "{}, number {n}, carried as {}",
                SchemeName(n),
                Negative(n)
            ),
            Some(Scheme::Name(span)) => writeln!(out, "{}", Quoted(self.at(span))),
        }
    }

    fn say_authority(self, out: &mut Output, authority: Option<Authority>) {
        out.text(b"host      ");
        let Some(authority) = authority else {
            return writeln!(out, "unset");
        };
        match authority.host {
            Host::Address(span) => writeln!(out, "{}", Address(self.at(span))),
            Host::Labels(count) => self.say_texts(out, 0, count, "label"),
        }
        match authority.port {
            None => writeln!(out, "port      unset"),
            Some(port) => writeln!(out, "port      {port}"),
        }
    }

    fn say_opening(self, out: &mut Output, opening: Opening) {
        match opening {
            Opening::Discard(k) => writeln!(out, "discard   {}", Count(k, "segment")),
            Opening::DiscardAll => writeln!(out, "discard   all segments"),
            Opening::Full(scheme, authority) => {
                self.say_scheme(out, scheme);
                self.say_authority(out, authority)
            }
        }
    }

    // A path or a query.
    fn say_slot(self, out: &mut Output, first: usize, count: Option<usize>, name: &'static str) {
        match count {
            None => writeln!(out, "unset"),
            Some(count) => self.say_texts(out, first, count, name),
        }
    }
}

// Labels, segments and parameters are counted from 0. In the spans the segments come after the labels, and the parameters after those.
pub fn say_components(out: &mut Output, bytes: &[u8], spans: &Spans, components: Components) {
    let reference = Reference { bytes, spans };
    let segments = label_count(components.opening);
    let parameters = segments.saturating_add(text_count(components.path));
    reference.say_opening(out, components.opening);
    out.text(b"path      ");
    reference.say_slot(out, segments, components.path, "segment");
    out.text(b"query     ");
    reference.say_slot(out, parameters, components.query, "parameter");
    match components.fragment {
        None => writeln!(out, "fragment  unset"),
        Some(span) => writeln!(out, "fragment  {}", Quoted(reference.at(span))),
    }
}
