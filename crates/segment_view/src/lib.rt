// A path segment as a part of the lent link.
#![tactic(auto)]

ghost use Rattle.std.specs.Prelude.{◌≡◌, suc};
ghost use Rattle.std.proofs.Math.ListN.{get_elem?};
ghost use Rattle.rules.specs.Result.{given, NONE};
ghost use Rattle.rules.specs.Model.{elements, limits};
ghost use Rattle.rules.specs.Reader.{span_at};
ghost use Rattle.rules.specs.Meaning.{text_spans};
ghost use Rattle.rules.specs.Views.{segment_view, segment_shown, verdict};
ghost use Rattle.rules.specs.Standing.{RowAt, TextsStand};
ghost use Rattle.cbor.specs.Heads.{span_is};
ghost use Rattle.reader.specs.Answers.{slot_of};
ghost use Rattle.cbor_rows.specs.Rows.{nth_at};
ghost use Rattle.refusals.specs.Answers.{answer_is, verdict_is};
ghost use Rattle.segment_view.specs.Shown.{PartOf};

use cbor::{Span, span_at};
use cbor_rows::Row;
use refusals::{Refusal, refuse};

// Where the content of the n-th item stands, from 0, of those that stand in a row from a position on.
fn nth_span(s: &[u8], at: usize, n: usize) -> Span
    requires { RowAt s.now at (suc n) }
    ensures { span_is result ≡ span_at s.now (nth_at s.now at n) }
{
    span_at(s, cbor_rows::after(s, Row { at, count: n }))
}

// The n-th segment of a path.
fn path_segment(s: &[u8], path: Option<Row>, n: usize) -> Result<Span, Refusal>
    requires { TextsStand limits.segments s.now (slot_of path) }
    ensures { answer_is span_is result ≡ given (get_elem? (elements (text_spans s.now (slot_of path))) n) NONE 0 }
{
    let Some(row) = path else { refuse!(None, 0) };
    if row.count <= n {
        refuse!(None, 0);
    }
    Ok(nth_span(s, row.at, n))
}

// The n-th segment of an input.
fn nth_segment(s: &[u8], n: usize) -> Result<Span, Refusal>
    ensures { answer_is span_is result ≡ segment_view limits s.now n }
{
    let found = reader::read(s)?;
    path_segment(s, found.path, n)
}

// The n-th path segment, from 0: the part of the link that holds it; the empty part at the start where there is none.
pub fn segment(link: &[u8], n: usize) -> &[u8]
    ensures { PartOf link.entry result (segment_shown (segment_view limits link.now n)) }
{
    match nth_segment(link, n) {
        Ok(span) => span.of(link),
        Err(_) => &link[..0],
    }
}

// Accepted where that segment is there; 1 to 7 where the link is refused; 18 where it has no such segment.
pub fn segment_verdict(link: &[u8], n: usize) -> Result<(), Refusal>
    ensures { verdict_is result ≡ verdict (segment_view limits link.now n) }
{
    nth_segment(link, n)?;
    Ok(())
}
